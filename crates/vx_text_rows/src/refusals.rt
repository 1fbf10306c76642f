// What each refusal is printed as.
use std::test::Fail;
use vx_model::limits::MOST_DISKS;
use vx_model::{Counted, Name, Named, No, SiteName};
use vx_report::refusal;

const NAMELESS: [(No, &str); 22] = [
    (
        No::Unknown {
            what: Named::Number(9),
        },
        "no 1 unknown 9\n",
    ),
    (No::Range, "no 3 range\n"),
    (No::Size, "no 4 size\n"),
    (No::Role, "no 5 role\n"),
    (No::Down, "no 6 down\n"),
    (No::Device { disk: 0 }, "no 7 device 0\n"),
    (No::Missing { disk: 7 }, "no 8 missing 7\n"),
    (No::NoConfig, "no 9 noconfig\n"),
    (No::LastPlex, "no 10 lastplex\n"),
    (
        No::Space {
            need: 2000,
            have: 1022,
        },
        "no 11 space 2000 1022\n",
    ),
    (No::Unconfirmed { number: 2 }, "no 15 unconfirmed 2\n"),
    (No::Inconsistent, "no 16 inconsistent\n"),
    (No::Behind { stored: 3, head: 4 }, "no 17 behind 3 4\n"),
    (
        No::Replaying {
            link: SiteName::Number(12),
        },
        "no 18 replaying #12\n",
    ),
    (
        No::Limit {
            what: Counted::Disks,
            most: MOST_DISKS as u64,
        },
        "no 19 limit disks 8\n",
    ),
    (
        No::Limit {
            what: Counted::Number,
            most: 4096,
        },
        "no 19 limit number 4096\n",
    ),
    (No::Halted { disk: 0 }, "no 20 halted 0\n"),
    (No::Gap { low: 2, need: 1 }, "no 21 gap 2 1\n"),
    (
        No::Damaged {
            unit: 1,
            block: 20,
            stored: [0xa0; 32],
            computed: [0x0f; 32],
        },
        "no 22 damaged 1 20 a0a0a0a0a0a0a0a0a0a0a0a0a0a0a0a0a0a0a0a0a0a0a0a0a0a0a0a0a0a0a0a0 0f0f0f0f0f0f0f0f0f0f0f0f0f0f0f0f0f0f0f0f0f0f0f0f0f0f0f0f0f0f0f0f\n",
    ),
    (No::Paused, "no 23 paused\n"),
    (
        No::Unsettled { stored: 3, head: 4 },
        "no 24 unsettled 3 4\n",
    ),
    (No::Format { version: 2 }, "no 25 format 2\n"),
];

fn link() -> SiteName {
    SiteName::Known(Name::new(b"b"))
}

#[test]
fn prints_each_refusal(rt: HostRuntime) -> Result<(), Fail> {
    for (no, wanted) in NAMELESS {
        let text = refusal(rt.alloc(), &no)?;
        assert!(rt; text.as_slice() == wanted.as_bytes(), "{wanted}");
    }
    let name = Name::new(b"d2");
    let what = Named::Of(name);
    for (no, wanted) in [
        (No::Unknown { what }, "no 1 unknown d2\n"),
        (No::Exists { name }, "no 2 exists d2\n"),
        (No::LogFull { link: link() }, "no 12 logfull b\n"),
        (No::Stalled { link: link() }, "no 13 stalled b\n"),
        (No::LinkDown { link: link() }, "no 14 linkdown b\n"),
        (No::Replaying { link: link() }, "no 18 replaying b\n"),
    ] {
        let text = refusal(rt.alloc(), &no)?;
        assert!(rt; text.as_slice() == wanted.as_bytes(), "{wanted}");
    }
    Ok(())
}
