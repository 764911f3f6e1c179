//! The days of one host that are served.

use crate::day::{Day, put_day};
use crate::host::Fuse;
use crate::outside::{Failing, NONE};
use crate::trouble::Trouble;
use nqs_types::Which;
use std::alloc::Global;

// The print is the least request, so `finish` is its end. The fourth call of the launcher fails,
// and the third file.
const WHOLE: Day = Day {
    title: "a day",
    failing: Failing {
        launches: &[4],
        files: &[3],
        ..NONE
    },
    fuse: None,
    schedule: b"clock 1000
qmgr alpha root add operator=olga
qmgr alpha root set run_limit=2 batch
qmgr alpha olga start queue batch
qmgr alpha ann stop queue batch
qmgr alpha root create device laser forms=plain
qmgr alpha root create device_queue paper
qmgr alpha root add device=laser paper
qmgr alpha olga enable device laser
qmgr alpha olga enable queue paper
qsub alpha bob \"a report\" -q paper -r report -f plain
qsub alpha ann \"./simulate\\n\" -r sim -p 40
qsub alpha bob \"#@$ -r sort -eo\\n./sort\\n\"
qsub alpha cy \"./pay\\n\" -r pay -nr
qsub alpha cy \"./pay\\n\" -p 64
qstat alpha ann
qmgr alpha olga start queue paper
finish alpha
clock 1010
end alpha 2.alpha 1 0 \"42\\n\" \"warn\\n\"
written alpha 1
written alpha 2
end alpha 3.alpha 1 1 \"\" \"no data\\n\"
unwritten alpha 3
tick alpha
written alpha 3
qsub alpha dora \"./late\\n\" -r late -a 1970-01-01T00:30:00
qsub alpha dora \"./broken\\n\" -r broken
fail alpha 6.alpha 1
qdel alpha ann 4.alpha
qdel alpha cy 4.alpha
qdel alpha cy -k 4.alpha
end alpha 4.alpha 1 137
clock 1800
tick alpha
end alpha 5.alpha 2 0
qsub alpha ann \"./next\\n\" -r next -p 50
qsub alpha ann \"./more\\n\" -r more -p 60
qmgr alpha olga hold request 8.alpha
qmgr alpha ann show queues
qmgr alpha ann show devices
qmgr alpha ann show managers
qstat alpha ann -u ann
show
",
    rounds: &[34],
};

// Three receives: a change, a change with a script and one more of its start, and none.
const JOB: Day = Day {
    title: "a job",
    failing: NONE,
    fuse: None,
    schedule: b"qmgr alpha root start queue batch
qsub alpha ann \"date\\n\"
qstat alpha ann
",
    rounds: &[3],
};

const RECEIVE: Day = Day {
    title: "the second receive fails",
    failing: Failing {
        receives: &[2],
        ..NONE
    },
    rounds: &[3, 2],
    ..JOB
};

const FIRST_RECEIVE: Day = Day {
    title: "the first receive fails",
    failing: Failing {
        receives: &[1],
        ..NONE
    },
    rounds: &[3, 3],
    ..JOB
};

const LAST_RECEIVE: Day = Day {
    title: "the last receive fails",
    failing: Failing {
        receives: &[3],
        ..NONE
    },
    rounds: &[3, 1],
    ..JOB
};

// A failed send is a loss.
const SEND: Day = Day {
    title: "each send fails",
    failing: Failing {
        sends: &[1, 2, 3],
        ..NONE
    },
    ..JOB
};

const LAUNCH: Day = Day {
    title: "the launch fails",
    failing: Failing {
        launches: &[1],
        ..NONE
    },
    ..JOB
};

// A failed kill is a loss: nothing comes back of it.
const KILL: Day = Day {
    title: "the kill fails",
    failing: Failing {
        launches: &[2],
        ..NONE
    },
    fuse: None,
    schedule: b"qmgr alpha root start queue batch
qsub alpha ann \"date\\n\"
qdel alpha ann -k 1.alpha
qstat alpha ann
",
    rounds: &[4],
};

// Two requests for one device. The first print fails, and the device is free for the second, which
// succeeds.
const PRINT: Day = Day {
    title: "the first print fails",
    failing: Failing {
        prints: &[1],
        ..NONE
    },
    fuse: None,
    schedule: b"qmgr alpha root create device laser forms=plain
qmgr alpha root create device_queue paper
qmgr alpha root add device=laser paper
qmgr alpha root enable device laser
qmgr alpha root enable queue paper
qmgr alpha root start queue paper
qsub alpha ann \"a\" -q paper
qsub alpha ann \"b\" -q paper
qstat alpha ann
qmgr alpha ann show devices
",
    rounds: &[10],
};

// The first is at its end, and the second goes.
const SECOND_PRINT: Day = Day {
    title: "the second print fails",
    failing: Failing {
        prints: &[2],
        ..NONE
    },
    ..PRINT
};

// A file that isn't written is asked for again by the next tick, and by no later one.
const FILE: Day = Day {
    title: "the first file fails",
    failing: Failing {
        files: &[1],
        ..NONE
    },
    fuse: None,
    schedule: b"qmgr alpha root start queue batch
qsub alpha ann \"date\\n\"
end alpha 1.alpha 1 0 \"hi\\n\"
tick alpha
tick alpha
qstat alpha ann
",
    rounds: &[6],
};

// Nothing is received after a shutdown.
const SHUTDOWN: Day = Day {
    title: "a shutdown",
    failing: NONE,
    fuse: None,
    schedule: b"tick alpha
qmgr alpha root shutdown
qstat alpha ann
",
    rounds: &[9],
};

static DAYS: [Day; 13] = [
    WHOLE,
    JOB,
    FIRST_RECEIVE,
    RECEIVE,
    LAST_RECEIVE,
    SEND,
    LAUNCH,
    KILL,
    PRINT,
    SECOND_PRINT,
    FILE,
    SHUTDOWN,
    // What a failed launch brings back is one change more, when the submission is answered.
    Day {
        title: "the launch fails, and the disk first at its call",
        fuse: Some(Fuse {
            which: Which::First,
            call: 13,
            alone: false,
        }),
        ..LAUNCH
    },
];

// Days of a job on which a call of a disk fails, each of so many.
struct Fused {
    title: &'static str,
    which: Which,
    alone: bool,
    first: u64,
    last: u64,
}

// A failed call ends the daemon, also where the later ones would go on. A change makes four calls
// of the disk first: those of the edit are 1 to 4, of the submission 5 to 8, of the start 9 to 12.
// The script makes two of the spool.
static FUSED: [Fused; 4] = [
    Fused {
        title: "the disk first fails at its call",
        which: Which::First,
        alone: false,
        first: 4,
        last: 13,
    },
    Fused {
        title: "the spool fails at its call",
        which: Which::Spool,
        alone: false,
        first: 1,
        last: 3,
    },
    Fused {
        title: "the disk first fails, and once, at its call",
        which: Which::First,
        alone: true,
        first: 4,
        last: 13,
    },
    Fused {
        title: "the spool fails, and once, at its call",
        which: Which::Spool,
        alone: true,
        first: 1,
        last: 3,
    },
];

fn put_at(alloc: Global, fused: &Fused, call: u64, out: &mut Vec<u8>) -> Result<(), Trouble> {
    let fuse = Fuse {
        which: fused.which,
        call,
        alone: fused.alone,
    };
    let day = Day {
        title: fused.title,
        fuse: Some(fuse),
        ..JOB
    };
    put_day(alloc, &day, out)
}

fn put_fused(alloc: Global, fused: &Fused, out: &mut Vec<u8>) -> Result<(), Trouble> {
    for call in fused.first..=fused.last {
        put_at(alloc, fused, call, out)?;
    }
    Ok(())
}

/// Prints what is seen of each day.
pub(crate) fn put_days(alloc: Global, out: &mut Vec<u8>) -> Result<(), Trouble> {
    for day in &DAYS {
        put_day(alloc, day, out)?;
    }
    for fused in &FUSED {
        put_fused(alloc, fused, out)?;
    }
    Ok(())
}
