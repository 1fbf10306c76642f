// What imports find of copies on two labelled disks.
use crate::copies::{FIRST, SECOND, SERIAL, START, Step};

pub const STEPS: &[(&str, &[Step])] = &[
    (
        "the newest copy is found",
        &[
            Step::FindsNone,
            Step::Copy(0, 1, &[]),
            Step::Copy(1, 1, &[]),
            Step::Finds(1, 3, true),
            // The first disk fails: the second one has serial 3, which holds it so.
            Step::Copy(1, 3, &[(SERIAL, 3), (FIRST, 1)]),
            Step::Finds(3, 2, true),
            Step::Fails(0),
            Step::Finds(3, 2, false),
            Step::Fails(1),
            Step::FindsNone,
            Step::Works(0),
            Step::Misses(1),
            Step::Works(1),
            Step::Finds(3, 2, true),
        ],
    ),
    (
        "a copy goes over the lesser one",
        &[
            Step::Copy(0, 1, &[(SERIAL, 1)]),
            Step::Finds(1, 3, true),
            Step::Copy(0, 2, &[(SERIAL, 2)]),
            Step::Finds(2, 3, true),
            Step::Copy(0, 3, &[(SERIAL, 3)]),
            Step::Finds(3, 3, true),
            Step::Copy(0, 4, &[(SERIAL, 4)]),
            Step::Finds(4, 3, true),
            Step::Copy(0, 5, &[(SERIAL, 5)]),
            Step::Finds(5, 3, true),
            // Serial 5 stands in the first area and serial 4 in the second.
            Step::Zeros(1),
            Step::Finds(4, 3, true),
        ],
    ),
    (
        "a body that is no configuration does not count",
        &[
            // A state that is neither 0 nor 1, and a disk of another size.
            Step::Copy(0, 1, &[(SECOND, 2)]),
            Step::FindsNone,
            Step::Copy(0, 2, &[(SECOND - 1, 1), (SERIAL, 2)]),
            Step::FindsNone,
        ],
    ),
    (
        "a configuration that is not sound does not count",
        &[
            Step::CopyVolume(1, &[(START, 63)]),
            Step::FindsNone,
            Step::CopyVolume(2, &[(SERIAL, 2)]),
            Step::Finds(2, 3, true),
            // A body of another serial than its header.
            Step::CopyVolume(3, &[]),
            Step::Finds(2, 3, true),
        ],
    ),
];
