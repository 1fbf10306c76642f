// A site crashes between two packets, and the link is settled behind it.
use std::test::Fail;
use vx_runs::{Status, answers};

const MADE: &str =
    "site a 3 64\nraw a\nsite b 3 64\nraw b\nlink a b synchronous=fail srlprot=fail\nconnect a b\nwrite a d1 0 1 11\nwait a 1\npump a b\n";

const WAS_MADE: &str =
    "done\ndone\ndone\ndone\ndone\ndone sent 1 1\nlogged 1\npending 1\ndone sent 2 2\n";

const SETTLED: &str =
    "wait a 1\nconnect a b\nsettle a b\nwait a 1\nread a d1 0 1\nshow b d1 0 1\nstatus a\n";

const CRASH_OF_B: &str =
    "done\nrecovered 0 sent 3 3\nsite b up\nrvg secondary 1 a head 0 mark consistent session 2\n";

const LATER_CRASH_OF_B: &str =
    "done\nrecovered 0 sent 4 4\nsite b up\nrvg secondary 1 a head 0 mark consistent session 2\n";

const CRASH_OF_A: &str =
    "done\nrecovered 1\nsite a up\nrvg primary 1 a head 1 mark consistent session 2\nlink b attached cut running log net 0 stored 0\n";

// Behind a crash of the receiver its primary goes on in its first session; behind one of the primary the link is in no session, and the
// write is not confirmed before the link is settled.
const END_BY_B: &str =
    "done 1\n11\n11\nsite a up\nrvg primary 1 a head 1 mark consistent session 1\nlink b attached connected running log net 1 stored 1\n";

const END_BY_A: &str =
    "no 15 unconfirmed 1\ndone sent 4 4\nsettled 1 sent 5 6\ndone 1\n11\n11\nsite a up\nrvg primary 1 a head 1 mark consistent session 2\nlink b attached connected running log net 1 stored 1\n";

// What a crash shows, and the site that crashes. Then what is delivered before the crash, and what that is answered; what its recovery is answered;
// what is delivered behind it, and what that is answered; and what comes of the settling.
#[derive(Clone, Copy, Drop)]
struct Crash {
    name: &'static str,
    site: &'static str,
    before: &'static str,
    was: &'static str,
    risen: &'static str,
    between: &'static str,
    came: &'static str,
    ends: &'static str,
    last: &'static str,
}

const CRASHES: [Crash; 6] = [
    // The receiver crashes before the update comes, behind it, and behind its acknowledgement, which it forgets. Whatever the crash is to keep, the
    // write that waits in memory is lost, and is sent again where it had been acknowledged.
    Crash {
        name: "the receiver crashes before the update comes",
        site: "b",
        before: "",
        was: "",
        risen: CRASH_OF_B,
        between: "deliver 2\ndeliver 3\n",
        came: "taken sent 4 4\ntaken\n",
        ends: "pending 1\ndone sent 5 5\nsettled 1 sent 6 7\n",
        last: END_BY_B,
    },
    Crash {
        name: "the receiver crashes behind the update",
        site: "b",
        before: "deliver 2\n",
        was: "taken sent 3 3\n",
        risen: LATER_CRASH_OF_B,
        between: "deliver 3\n",
        came: "taken\n",
        ends: "done 1\ndone sent 5 5\nsettled 1 sent 6 9\n",
        last: END_BY_B,
    },
    Crash {
        name: "the receiver crashes behind its acknowledgement",
        site: "b",
        before: "deliver 2\ndeliver 3\n",
        was: "taken sent 3 3\ntaken\n",
        risen: LATER_CRASH_OF_B,
        between: "",
        came: "",
        ends: "done 1\ndone sent 5 5\nsettled 1 sent 6 9\n",
        last: END_BY_B,
    },
    // The primary crashes there. What was acknowledged from memory alone it forgets, and hears no acknowledgement until the receiver greets.
    Crash {
        name: "the primary crashes before the update comes",
        site: "a",
        before: "",
        was: "",
        risen: CRASH_OF_A,
        between: "deliver 2\ndeliver 3\n",
        came: "taken sent 3 3\nignored\n",
        ends: "",
        last: END_BY_A,
    },
    Crash {
        name: "the primary crashes behind the update",
        site: "a",
        before: "deliver 2\n",
        was: "taken sent 3 3\n",
        risen: CRASH_OF_A,
        between: "deliver 3\n",
        came: "ignored\n",
        ends: "",
        last: END_BY_A,
    },
    Crash {
        name: "the primary crashes behind the acknowledgement",
        site: "a",
        before: "deliver 2\ndeliver 3\n",
        was: "taken sent 3 3\ntaken\n",
        risen: CRASH_OF_A,
        between: "",
        came: "",
        ends: "",
        last: END_BY_A,
    },
];

// A link is made and sends a write. So many packets are delivered, the site crashes and is recovered, the other packets are delivered, and the link
// is settled.
#[test]
fn a_site_crashes_between_packets(rt: HostRuntime) -> Result<(), Fail> {
    let alloc = rt.alloc();
    for crash in CRASHES {
        let Crash {
            name,
            site,
            before,
            was,
            risen,
            between,
            came,
            ends,
            last,
        } = crash;
        let wanted = format!(in alloc; "{WAS_MADE}{was}{risen}{came}{ends}{last}")?;
        for pick in [0_u64, 9] {
            let script = format!(in alloc;
                "{MADE}{before}crash {site} {pick}\nrecover {site}\n{between}{SETTLED}"
            )?;
            let answer = answers(&rt, alloc, script.as_bytes())?;
            assert!(rt; answer.is(Status::Done, &wanted), "{name}, with {pick}");
        }
    }
    Ok(())
}
