// Meets every refusal of the store and of the box, and prints what each says and whether anything changed.
#![tactic(auto)]

mod bed;
mod records;
mod stores;

use bed::{Bed, Call, Opening};
use layout::{Passage, SeatId};
use seats::{Place, Seat};

fn main(rt: HostRuntime) -> anyhow::Result<()> {
    run(&rt)
}

fn run(rt: &HostRuntime) -> anyhow::Result<()> {
    stores::positions(rt)?;
    stores::images(rt)?;
    openings(rt)?;
    sizes(rt)?;
    unlawful(rt)?;
    away(rt)?;
    climbing(rt)?;
    holding(rt)?;
    spent(rt)?;
    unfit(rt)
}

// Questions 1 to 3 of an opening.
fn openings(rt: &HostRuntime) -> anyhow::Result<()> {
    let tried = [
        Opening {
            ways: 1,
            seats: 64,
            cells: 252,
        },
        Opening {
            ways: 5,
            seats: 64,
            cells: 252,
        },
        Opening {
            ways: 4,
            seats: 64,
            cells: 251,
        },
        Opening {
            ways: 4,
            seats: 63,
            cells: 252,
        },
        Opening {
            ways: 3,
            seats: 9,
            cells: 39,
        },
        Opening {
            ways: 3,
            seats: 8,
            cells: 40,
        },
        Opening {
            ways: 2,
            seats: 2,
            cells: 7,
        },
        Opening {
            ways: 2,
            seats: 1,
            cells: 8,
        },
    ];
    for opening in tried {
        opening.refused(rt)?;
    }
    Ok(())
}

// Every call, of one seat and passage.
fn all(rt: &HostRuntime, bed: &mut Bed, seat: SeatId, passage: Passage) -> anyhow::Result<()> {
    bed.refused(
        rt,
        &[
            Call::Apply(seat),
            Call::Poll(seat, passage, 0),
            Call::GiveUp(seat, passage),
            Call::Leave(seat, passage),
            Call::Publish(seat, passage),
            Call::Look(seat),
        ],
    )
}

// Questions 2 to 4: a store, a table and a seat that do not fit the box.
fn sizes(rt: &HostRuntime) -> anyhow::Result<()> {
    println!(rt; "a store of 251 cells")?;
    all(rt, &mut Bed::new(rt, 64, 251)?, SeatId(5), Passage(1))?;
    println!(rt; "a table of 63 seats")?;
    all(rt, &mut Bed::new(rt, 63, 252)?, SeatId(5), Passage(1))?;
    println!(rt; "no such seat")?;
    all(rt, &mut Bed::new(rt, 64, 252)?, SeatId(64), Passage(1))?;
    all(rt, &mut Bed::new(rt, 70, 300)?, SeatId(255), Passage(1))
}

// Question 5: an away seat with a field that is not 0, and a climbing one whose height does not fit its top.
fn unlawful(rt: &HostRuntime) -> anyhow::Result<()> {
    println!(rt; "an unlawful record")?;
    let mut bed = Bed::new(rt, 64, 252)?;
    bed.put(
        5,
        Seat {
            aim: 1,
            ..Seat::away()
        },
    );
    all(rt, &mut bed, SeatId(5), Passage(0))?;
    bed.put(
        5,
        Seat {
            top: 2,
            ..records::climbing(Place::ClaimApply)
        },
    );
    all(rt, &mut bed, SeatId(5), Passage(1))
}

// Questions 6 and 7 of a seat that is away.
fn away(rt: &HostRuntime) -> anyhow::Result<()> {
    println!(rt; "an away seat")?;
    let mut bed = Bed::new(rt, 64, 252)?;
    bed.refused(
        rt,
        &[
            Call::Poll(SeatId(5), Passage(0), 0),
            Call::GiveUp(SeatId(5), Passage(0)),
            Call::Leave(SeatId(5), Passage(0)),
            Call::Publish(SeatId(5), Passage(0)),
        ],
    )
}

// Questions 6, 7 and 9 of a seat that climbs.
fn climbing(rt: &HostRuntime) -> anyhow::Result<()> {
    println!(rt; "a climbing seat")?;
    let mut bed = Bed::new(rt, 64, 252)?;
    bed.put(5, records::climbing(Place::RaceForRole));
    bed.refused(
        rt,
        &[
            Call::Apply(SeatId(5)),
            Call::Poll(SeatId(5), Passage(2), 0),
            Call::Poll(SeatId(5), Passage(1), 3),
            Call::Poll(SeatId(5), Passage(1), 255),
            Call::GiveUp(SeatId(5), Passage(2)),
            Call::Leave(SeatId(5), Passage(1)),
            Call::Publish(SeatId(5), Passage(1)),
        ],
    )?;
    println!(rt; "a climbing seat that has given up")?;
    bed.put(
        5,
        Seat {
            gave_up: true,
            ..records::climbing(Place::CloseApply)
        },
    );
    bed.refused(
        rt,
        &[
            Call::GiveUp(SeatId(5), Passage(1)),
            Call::Poll(SeatId(5), Passage(1), 3),
        ],
    )
}

// Questions 6 and 7 of a seat that holds.
fn holding(rt: &HostRuntime) -> anyhow::Result<()> {
    println!(rt; "a holding seat")?;
    let mut bed = Bed::new(rt, 64, 252)?;
    bed.put(5, records::holding());
    bed.refused(
        rt,
        &[
            Call::Apply(SeatId(5)),
            Call::Poll(SeatId(5), Passage(1), 0),
            Call::Poll(SeatId(5), Passage(1), 3),
            Call::GiveUp(SeatId(5), Passage(1)),
            Call::Leave(SeatId(5), Passage(9)),
            Call::Publish(SeatId(5), Passage(9)),
        ],
    )
}

// Question 8: the last passage number, and the application after it.
fn spent(rt: &HostRuntime) -> anyhow::Result<()> {
    println!(rt; "numbers that are spent")?;
    let mut bed = Bed::new(rt, 64, 252)?;
    for n in 1..16384u16 {
        bed.accepted(Call::Apply(SeatId(5)))?;
        bed.accepted(Call::GiveUp(SeatId(5), Passage(n)))?;
    }
    bed.refused(rt, &[Call::Apply(SeatId(5)), Call::Apply(SeatId(63))])
}

// Question 10: a word that does not fit, at each place that asks. Seat 5 meets the gate of cells 12 to 23 by way 1.
fn unfit(rt: &HostRuntime) -> anyhow::Result<()> {
    println!(rt; "unfit words")?;
    let mut bed = Bed::new(rt, 64, 252)?;
    let poll = Call::Poll(SeatId(5), Passage(1), 0);
    bed.put(5, records::climbing(Place::AwaitKing));
    for word in [4, 15, 65536] {
        bed.write(13, word);
        bed.refused(rt, &[poll])?;
    }
    bed.put(
        5,
        Seat {
            gave_up: true,
            ..records::climbing(Place::AcceptGate)
        },
    );
    for word in [0, 4, 15] {
        bed.write(13, word);
        bed.refused(rt, &[poll])?;
    }
    bed.put(5, records::leaving(Place::ReadRole));
    for word in [0, 3, 5] {
        bed.write(21, word);
        bed.refused(rt, &[poll])?;
    }
    bed.put(5, records::leaving(Place::ReadSyncTwo));
    for word in [0, 5] {
        bed.write(14, word);
        bed.refused(rt, &[poll])?;
    }
    Ok(())
}
