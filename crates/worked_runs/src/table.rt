// Runs of calls with what they must end in, as tools/runs.py prints them: change them there.
use crate::running::{ALL, run};
use division::mark::Mark;
use envelope::Step;
use fault::Fault;
use line::Criterion;
use runs::model::{Answer, Call, Lent};
use std::test::Fail;

#[test]
fn line_a(rt: HostRuntime) -> Result<(), Fail> {
    run(
        &rt,
        &[3, 3, 8, 9, 4, 4],
        &[
            Call::Mark(Mark {
                first: 1,
                last: 3,
                boundaries: 1,
            }),
            Call::Cut(Criterion::Penalty(20), ALL),
            Call::Path(ALL),
            Call::Reopen,
            Call::Unmark(1),
            Call::Path(ALL),
            Call::Shortest(3),
            Call::Cut(Criterion::Penalty(0), ALL),
        ],
        &[
            Ok(Answer::Standing(1)),
            Ok(Answer::Total(41)),
            Err(Fault::WrongState),
            Ok(Answer::Reopened),
            Ok(Answer::Standing(0)),
            Ok(Answer::Path),
            Ok(Answer::Shortest(3)),
            Ok(Answer::Total(34)),
        ],
        &[3],
        &[
            Step {
                penalty: 0,
                count: 3,
                loss: 0,
            },
            Step {
                penalty: 1,
                count: 2,
                loss: 1,
            },
            Step {
                penalty: 17,
                count: 0,
                loss: 35,
            },
        ],
        3,
    )
}

#[test]
fn refusals_in_order(rt: HostRuntime) -> Result<(), Fail> {
    run(
        &rt,
        &[3, 3, 8, 9, 4, 4],
        &[
            Call::Shortest(3),
            Call::Cut(Criterion::Penalty(0), ALL),
            Call::Reopen,
            Call::Mark(Mark {
                first: 1,
                last: 3,
                boundaries: 1,
            }),
            Call::Cut(Criterion::Penalty(0), ALL),
            Call::Path(ALL),
            Call::Cut(Criterion::Count(6), ALL),
            Call::Cut(Criterion::Penalty(562949953421313), ALL),
            Call::Cut(
                Criterion::Penalty(0),
                Lent {
                    numbers: 20,
                    trace: 64,
                },
            ),
            Call::Path(Lent {
                numbers: 20,
                trace: 64,
            }),
            Call::Cut(
                Criterion::Penalty(0),
                Lent {
                    numbers: 21,
                    trace: 6,
                },
            ),
            Call::Cut(
                Criterion::Count(2),
                Lent {
                    numbers: 21,
                    trace: 20,
                },
            ),
            Call::Mark(Mark {
                first: 2,
                last: 4,
                boundaries: 0,
            }),
            Call::Mark(Mark {
                first: 3,
                last: 7,
                boundaries: 0,
            }),
            Call::Shortest(7),
            Call::Unmark(2),
        ],
        &[
            Ok(Answer::Shortest(3)),
            Ok(Answer::Total(34)),
            Ok(Answer::Reopened),
            Ok(Answer::Standing(1)),
            Err(Fault::NoAllowedDivision),
            Err(Fault::NoAllowedDivision),
            Err(Fault::BadCount),
            Err(Fault::BadPenalty),
            Err(Fault::ShortBuffer),
            Err(Fault::ShortBuffer),
            Err(Fault::ShortBuffer),
            Err(Fault::ShortBuffer),
            Err(Fault::SharedGap),
            Err(Fault::BadMark),
            Err(Fault::BadShortest),
            Err(Fault::NoSuchMark),
        ],
        &[3],
        &[],
        1,
    )
}

#[test]
fn wrong_state(rt: HostRuntime) -> Result<(), Fail> {
    run(
        &rt,
        &[5, 5, 1],
        &[
            Call::Reopen,
            Call::Mark(Mark {
                first: 1,
                last: 2,
                boundaries: 0,
            }),
            Call::Cut(Criterion::Count(1), ALL),
            Call::Mark(Mark {
                first: 2,
                last: 3,
                boundaries: 0,
            }),
            Call::Unmark(1),
            Call::Shortest(1),
            Call::Path(ALL),
            Call::Cut(Criterion::Count(1), ALL),
            Call::Reopen,
            Call::Cut(Criterion::Penalty(0), ALL),
        ],
        &[
            Err(Fault::WrongState),
            Ok(Answer::Standing(1)),
            Ok(Answer::Total(0)),
            Err(Fault::WrongState),
            Err(Fault::WrongState),
            Err(Fault::WrongState),
            Err(Fault::WrongState),
            Err(Fault::WrongState),
            Ok(Answer::Reopened),
            Ok(Answer::Total(0)),
        ],
        &[2],
        &[],
        7,
    )
}

#[test]
fn one_reading(rt: HostRuntime) -> Result<(), Fail> {
    run(
        &rt,
        &[-7],
        &[
            Call::Path(ALL),
            Call::Mark(Mark {
                first: 1,
                last: 1,
                boundaries: 0,
            }),
            Call::Cut(Criterion::Count(1), ALL),
            Call::Cut(Criterion::Count(0), ALL),
            Call::Reopen,
            Call::Shortest(1),
            Call::Cut(
                Criterion::Penalty(9),
                Lent {
                    numbers: 6,
                    trace: 2,
                },
            ),
            Call::Reopen,
            Call::Cut(
                Criterion::Penalty(9),
                Lent {
                    numbers: 5,
                    trace: 2,
                },
            ),
        ],
        &[
            Ok(Answer::Path),
            Err(Fault::BadMark),
            Err(Fault::BadCount),
            Ok(Answer::Total(0)),
            Ok(Answer::Reopened),
            Ok(Answer::Shortest(1)),
            Ok(Answer::Total(0)),
            Ok(Answer::Reopened),
            Err(Fault::ShortBuffer),
        ],
        &[],
        &[Step {
            penalty: 0,
            count: 0,
            loss: 0,
        }],
        0,
    )
}

#[test]
fn any_calls_1(rt: HostRuntime) -> Result<(), Fail> {
    run(
        &rt,
        &[-5, 9, -7, -1, -6, 6],
        &[
            Call::Cut(Criterion::Count(0), ALL),
            Call::Reopen,
            Call::Mark(Mark {
                first: 5,
                last: 6,
                boundaries: 1,
            }),
            Call::Cut(Criterion::Penalty(8), ALL),
            Call::Reopen,
            Call::Shortest(2),
            Call::Cut(Criterion::Penalty(4), ALL),
            Call::Cut(Criterion::Penalty(5), ALL),
            Call::Cut(Criterion::Penalty(7), ALL),
            Call::Unmark(5),
            Call::Cut(Criterion::Count(0), ALL),
            Call::Reopen,
            Call::Cut(Criterion::Penalty(0), ALL),
            Call::Cut(Criterion::Count(0), ALL),
            Call::Reopen,
            Call::Path(ALL),
        ],
        &[
            Ok(Answer::Total(226)),
            Ok(Answer::Reopened),
            Ok(Answer::Standing(1)),
            Ok(Answer::Total(40)),
            Ok(Answer::Reopened),
            Ok(Answer::Shortest(2)),
            Err(Fault::NoAllowedDivision),
            Err(Fault::NoAllowedDivision),
            Err(Fault::NoAllowedDivision),
            Ok(Answer::Standing(0)),
            Ok(Answer::Total(226)),
            Ok(Answer::Reopened),
            Ok(Answer::Total(188)),
            Err(Fault::WrongState),
            Ok(Answer::Reopened),
            Ok(Answer::Path),
        ],
        &[2, 4],
        &[
            Step {
                penalty: 0,
                count: 2,
                loss: 188,
            },
            Step {
                penalty: 16,
                count: 1,
                loss: 204,
            },
            Step {
                penalty: 22,
                count: 0,
                loss: 226,
            },
        ],
        3,
    )
}

#[test]
fn any_calls_2(rt: HostRuntime) -> Result<(), Fail> {
    run(
        &rt,
        &[-8, -7, -7, 2, -4, 0],
        &[
            Call::Cut(Criterion::Penalty(2), ALL),
            Call::Reopen,
            Call::Shortest(2),
            Call::Cut(Criterion::Penalty(28), ALL),
            Call::Reopen,
            Call::Cut(Criterion::Penalty(5), ALL),
            Call::Reopen,
            Call::Cut(Criterion::Count(2), ALL),
            Call::Reopen,
            Call::Mark(Mark {
                first: 3,
                last: 5,
                boundaries: 0,
            }),
            Call::Cut(Criterion::Penalty(21), ALL),
            Call::Reopen,
            Call::Path(ALL),
            Call::Cut(Criterion::Penalty(9), ALL),
            Call::Mark(Mark {
                first: 5,
                last: 6,
                boundaries: 1,
            }),
            Call::Reopen,
        ],
        &[
            Ok(Answer::Total(7)),
            Ok(Answer::Reopened),
            Ok(Answer::Shortest(2)),
            Ok(Answer::Total(48)),
            Ok(Answer::Reopened),
            Ok(Answer::Total(25)),
            Ok(Answer::Reopened),
            Ok(Answer::Total(50)),
            Ok(Answer::Reopened),
            Ok(Answer::Standing(1)),
            Ok(Answer::Total(71)),
            Ok(Answer::Reopened),
            Ok(Answer::Path),
            Ok(Answer::Total(59)),
            Err(Fault::WrongState),
            Ok(Answer::Reopened),
        ],
        &[2],
        &[
            Step {
                penalty: 0,
                count: 1,
                loss: 50,
            },
            Step {
                penalty: 36,
                count: 0,
                loss: 86,
            },
        ],
        7,
    )
}

#[test]
fn any_calls_3(rt: HostRuntime) -> Result<(), Fail> {
    run(
        &rt,
        &[-2, 9, 8, -5, 2, 6],
        &[
            Call::Mark(Mark {
                first: 5,
                last: 6,
                boundaries: 0,
            }),
            Call::Cut(Criterion::Penalty(2), ALL),
            Call::Reopen,
            Call::Cut(Criterion::Count(2), ALL),
            Call::Reopen,
            Call::Mark(Mark {
                first: 4,
                last: 6,
                boundaries: 1,
            }),
            Call::Cut(Criterion::Penalty(6), ALL),
            Call::Reopen,
            Call::Path(ALL),
            Call::Path(ALL),
            Call::Cut(Criterion::Penalty(27), ALL),
            Call::Mark(Mark {
                first: 4,
                last: 5,
                boundaries: 0,
            }),
            Call::Reopen,
            Call::Path(ALL),
            Call::Path(ALL),
            Call::Cut(Criterion::Penalty(27), ALL),
        ],
        &[
            Ok(Answer::Standing(1)),
            Ok(Answer::Total(15)),
            Ok(Answer::Reopened),
            Ok(Answer::Total(63)),
            Ok(Answer::Reopened),
            Err(Fault::SharedGap),
            Ok(Answer::Total(27)),
            Ok(Answer::Reopened),
            Ok(Answer::Path),
            Ok(Answer::Path),
            Ok(Answer::Total(90)),
            Err(Fault::WrongState),
            Ok(Answer::Reopened),
            Ok(Answer::Path),
            Ok(Answer::Path),
            Ok(Answer::Total(90)),
        ],
        &[1, 3, 4],
        &[
            Step {
                penalty: 0,
                count: 4,
                loss: 8,
            },
            Step {
                penalty: 1,
                count: 3,
                loss: 9,
            },
            Step {
                penalty: 51,
                count: 0,
                loss: 160,
            },
        ],
        6,
    )
}
