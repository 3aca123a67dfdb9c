// What is printed.
use audit::report::Report;
use cuts::criterion::Criterion;
use division::mark::Mark;
use envelope::Step;
use leaves::kind::LossKind;
use std::io;

const HELP: [&str; 12] = [
    "loss squares|distances|votes      begin a new line under that loss (squares at the start)",
    "readings 3 3 8 9 4 4              take readings behind those held, all of them or none",
    "mark FIRST LAST BOUNDARIES        exactly 0 or 1 of the gaps FIRST to LAST - 1 is a boundary",
    "unmark FIRST                      lift the mark that begins at reading FIRST",
    "shortest M                        every stretch holds at least M readings",
    "price PENALTY at GAP GAP ..       check the division with these boundaries",
    "best PENALTY                      the cheapest allowed division at that penalty for each boundary",
    "best count COUNT                  the cheapest allowed division with so many boundaries",
    "path                              for every penalty, how many boundaries are best",
    "help                              print this list",
    "# ..                              a comment",
    "Gap i lies between reading i and reading i + 1.",
];

pub fn show_help(rt: &HostRuntime) -> io::Result<()> {
    for line in &HELP {
        println!(rt; "{line}")?;
    }
    Ok(())
}

// The words of this program: `leaves` prints nothing, and so has no Display.
pub fn kind_name(kind: LossKind) -> &'static str {
    match kind {
        LossKind::Squares => "squares",
        LossKind::Distances => "distances",
        LossKind::Votes => "votes",
    }
}

// What a reader needs to check a printed division.
pub fn show_report(
    rt: &HostRuntime,
    penalty: u64,
    shortest: u16,
    gaps: &[u16],
    report: &Report,
) -> io::Result<()> {
    print!(rt; "price {penalty} at")?;
    for gap in gaps {
        print!(rt; " {gap}")?;
    }
    println!(rt; "")?;
    show_stretches(rt, report)?;
    show_marks(rt, report)?;
    show_sums(rt, shortest, report)
}

fn show_stretches(rt: &HostRuntime, report: &Report) -> io::Result<()> {
    for stretch in &report.stretches {
        let first = u32::from(stretch.start) + 1;
        let last = stretch.end;
        let loss = stretch.loss;
        println!(rt; "  readings {first} to {last} lose {loss}")?;
    }
    Ok(())
}

fn show_marks(rt: &HostRuntime, report: &Report) -> io::Result<()> {
    for counted in &report.marks {
        let Mark {
            first,
            last,
            boundaries,
        } = counted.mark;
        let found = counted.boundaries;
        let verdict = if counted.obeyed { "obeyed" } else { "broken" };
        println!(rt; "  mark {first} {last} {boundaries} holds {found}: {verdict}")?;
    }
    Ok(())
}

fn show_sums(rt: &HostRuntime, shortest: u16, report: &Report) -> io::Result<()> {
    let length = if report.long_enough {
        "every stretch is long enough"
    } else {
        "a stretch is too short"
    };
    let loss = report.loss;
    let total = report.total;
    let verdict = if report.allowed {
        "allowed"
    } else {
        "not allowed"
    };
    println!(rt; "  shortest {shortest}: {length}")?;
    println!(rt; "  loss {loss}, total {total}")?;
    println!(rt; "  {verdict}")
}

// What was asked for, the boundaries of the winner, and its total.
pub fn show_best(
    rt: &HostRuntime,
    criterion: Criterion,
    total: u64,
    boundaries: &[u16],
) -> io::Result<()> {
    match criterion {
        Criterion::Penalty(penalty) => print!(rt; "best {penalty}: ")?,
        Criterion::Count(count) => print!(rt; "best count {count}: ")?,
    }
    show_boundaries(rt, boundaries)?;
    println!(rt; ", total {total}")
}

fn show_boundaries(rt: &HostRuntime, gaps: &[u16]) -> io::Result<()> {
    if gaps.is_empty() {
        return print!(rt; "no boundary");
    }
    print!(rt; "boundaries")?;
    for gap in gaps {
        print!(rt; " {gap}")?;
    }
    Ok(())
}

// Whether the division that was printed, of this total, is the winner, and else which one is. The winner has the least total, and the
// boundaries `best`; there is none where no division is allowed. Not an `Option` of both: the check does not cover a list that is lent on one
// arm alone.
pub fn show_comparison(
    rt: &HostRuntime,
    printed: &[u16],
    total: u64,
    least: Option<u64>,
    best: &[u16],
) -> io::Result<()> {
    let Some(least) = least else {
        return println!(rt; "  no division is allowed");
    };
    if printed == best {
        return println!(rt; "  the winner");
    }
    print!(rt; "  the winner has ")?;
    show_boundaries(rt, best)?;
    if least <= total {
        let less = total - least;
        println!(rt; ", total {least}: {less} less")
    } else {
        let more = least - total;
        println!(rt; ", total {least}: {more} more")
    }
}

// The steps of a path: from which penalty on how many boundaries are best.
pub fn show_path(rt: &HostRuntime, steps: &[Step]) -> io::Result<()> {
    let count = steps.len();
    println!(rt; "path: {count} in all")?;
    for step in steps {
        let Step {
            penalty,
            count,
            loss,
        } = *step;
        println!(rt; "  from penalty {penalty}: {count} boundaries, loss {loss}")?;
    }
    Ok(())
}
