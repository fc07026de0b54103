// Damaged skins through the checker, each with the answer that the rules demand.
use crate::damage::Damage;
use crate::made::{checked, checked_with};
use crate::skin::{Corner, Skin, Triangle, count};
use crate::survey::{Said, Verdict};
use block::Refusal;
use checker::work_needed;
use std::alloc::{AllocError, Global};

// What is done to two tetrahedra, 0 1 2 3 with triangles 0 to 3 and 4 5 6 7 with triangles 4 to 7, and what it is answered by.
#[derive(Clone, Copy)]
struct Case {
    name: &'static str,
    damages: &'static [Damage],
    answer: Refusal,
}

const CASES: [Case; 17] = [
    Case {
        name: "a triangle dropped",
        damages: &[Damage::Dropped(5)],
        answer: Refusal::BadSide(4),
    },
    Case {
        name: "a triangle doubled",
        damages: &[Damage::Doubled(5)],
        answer: Refusal::BadSide(4),
    },
    Case {
        name: "a triangle turned",
        damages: &[Damage::Turned(5)],
        answer: Refusal::BadSide(4),
    },
    Case {
        name: "two corners of a triangle welded",
        damages: &[Damage::Welded(6, 7)],
        answer: Refusal::BadTriangle(5),
    },
    Case {
        name: "a common corner",
        damages: &[Damage::Welded(3, 7)],
        answer: Refusal::BadRing(3),
    },
    Case {
        name: "a common side",
        damages: &[Damage::Welded(2, 6), Damage::Welded(3, 7)],
        answer: Refusal::BadSide(1),
    },
    Case {
        name: "a corner in no triangle",
        damages: &[Damage::Loose],
        answer: Refusal::BadRing(8),
    },
    Case {
        name: "a corner out of range",
        damages: &[Damage::Renumbered(6, 8)],
        answer: Refusal::BadTriangle(6),
    },
    Case {
        name: "a corner twice in a triangle",
        damages: &[Damage::Repeated(2)],
        answer: Refusal::BadTriangle(2),
    },
    Case {
        name: "parts exchanged",
        damages: &[Damage::Exchanged(0, 1)],
        answer: Refusal::BadPart(0),
    },
    Case {
        name: "a triangle in another part",
        damages: &[Damage::Moved(6, 0)],
        answer: Refusal::BadPart(6),
    },
    Case {
        name: "a part too many in the header",
        damages: &[Damage::Counted(3)],
        answer: Refusal::BadPart(8),
    },
    Case {
        name: "a part too few in the header",
        damages: &[Damage::Counted(1)],
        answer: Refusal::BadPart(8),
    },
    Case {
        name: "a corner out of range behind a triangle dropped",
        damages: &[Damage::Dropped(0), Damage::Renumbered(6, 8)],
        answer: Refusal::BadTriangle(6),
    },
    Case {
        name: "a triangle turned, and a corner in none",
        damages: &[Damage::Loose, Damage::Turned(5)],
        answer: Refusal::BadSide(4),
    },
    Case {
        name: "a corner in no triangle, and parts exchanged",
        damages: &[Damage::Exchanged(0, 1), Damage::Loose],
        answer: Refusal::BadRing(8),
    },
    Case {
        name: "parts exchanged, and a part too many",
        damages: &[Damage::Counted(3), Damage::Exchanged(0, 1)],
        answer: Refusal::BadPart(0),
    },
];

// How many triangles the large skins have, and how many corners each rim of a double fan.
const MANY: u32 = 1_000_000;

const RIM: u32 = MANY / 4;

// Runs every case, prints what each is answered by, and says how many answers are wrong.
pub fn run(rt: &HostRuntime) -> anyhow::Result<u32> {
    let heap = rt.alloc();
    let mut trial = Trial { rt, wrong: 0 };
    trial.skin("an empty skin", &tetrahedra(heap, 0)?, Ok(()))?;
    trial.skin("a tetrahedron", &tetrahedra(heap, 1)?, Ok(()))?;
    trial.skin("two tetrahedra", &tetrahedra(heap, 2)?, Ok(()))?;
    for case in &CASES {
        let mut skin = tetrahedra(heap, 2)?;
        for damage in case.damages {
            damage.apply(&mut skin)?;
        }
        trial.skin(case.name, &skin, Err(case.answer))?;
    }
    trial.lengths()?;
    trial.large_skins()?;
    Ok(trial.wrong)
}

// Where answers are printed, and how many of them are wrong.
#[derive(Drop)]
struct Trial<'a> {
    rt: &'a HostRuntime,
    wrong: u32,
}

impl Trial<'_> {
    // Prints what a skin is answered by.
    fn skin(&mut self, name: &str, skin: &Skin, expected: Verdict) -> anyhow::Result<()> {
        let bytes = skin.bytes(self.rt.alloc())?;
        self.answer(name, checked(self.rt.alloc(), bytes.as_slice())?, expected)
    }

    fn answer(&mut self, name: &str, said: Verdict, expected: Verdict) -> anyhow::Result<()> {
        println!(self.rt; "{name}: {}", Said(said))?;
        if said != expected {
            println!(self.rt; "  should be {}", Said(expected))?;
            self.wrong = self.wrong.saturating_add(1);
        }
        Ok(())
    }

    // Prints how many of some answers are wrong.
    fn wrong_answers(&mut self, name: &str, wrong: usize) -> anyhow::Result<()> {
        println!(self.rt; "{name}: {wrong} wrong answers")?;
        self.wrong = self.wrong.saturating_add(count(wrong));
        Ok(())
    }

    // A tetrahedron's bytes that are too few or too many, and work that is one number short.
    fn lengths(&mut self) -> anyhow::Result<()> {
        let heap = self.rt.alloc();
        let bytes = tetrahedra(heap, 1)?.bytes(heap)?;
        let bytes = bytes.as_slice();
        let n = bytes.len();
        self.wrong_answers(
            format!(in heap; "a tetrahedron cut at each of {n} bytes")?.as_str(),
            count_cut(heap, bytes)?,
        )?;
        self.wrong_answers(
            format!(in heap; "a byte more before each of {n} bytes, and behind them")?.as_str(),
            count_put_in(heap, bytes)?,
        )?;
        let short = checked_with(heap, bytes, work_needed(4, 4).saturating_sub(1))?;
        self.answer("work one number short", short, Err(Refusal::ShortBuffer(0)))
    }

    // Skins of a million triangles, most of them at one corner: they are answered in linear time.
    fn large_skins(&mut self) -> anyhow::Result<()> {
        let heap = self.rt.alloc();
        self.skin(
            "a fan of a million triangles",
            &fan(heap)?,
            Err(Refusal::BadSide(0)),
        )?;
        self.skin(
            "a million copies of a triangle",
            &copies(heap)?,
            Err(Refusal::BadSide(0)),
        )?;
        let mut tops = double_fans(heap)?;
        self.skin("two double fans of half a million triangles", &tops, Ok(()))?;
        Damage::Welded(0, 2).apply(&mut tops)?;
        self.skin(
            "the same with a common top",
            &tops,
            Err(Refusal::BadRing(0)),
        )
    }
}

// So many tetrahedra apart, each a part.
fn tetrahedra(heap: Global, count: u8) -> Result<Skin, AllocError> {
    let mut corners = Vec::new(heap);
    let mut triangles = Vec::new(heap);
    for part in 0..u32::from(count) {
        for [x, y, z] in [[0, 0, 0], [256, 0, 0], [0, 256, 0], [0, 0, 256]] {
            corners.push(Corner { x, y, z })?;
        }
        let (a, b, c, d) = (4 * part, 4 * part + 1, 4 * part + 2, 4 * part + 3);
        for corners in [[a, b, c], [a, c, d], [a, d, b], [b, d, c]] {
            triangles.push(Triangle { corners, part })?;
        }
    }
    Ok(Skin {
        corners,
        triangles,
        parts: u32::from(count),
    })
}

// How often bytes that end too early are not refused at their length.
fn count_cut(heap: Global, bytes: &[u8]) -> Result<usize, AllocError> {
    let answers: Vec<Verdict> = (0..bytes.len())
        .map(|n| checked(heap, &bytes[..n]))
        .try_collect(heap)?;
    Ok(
        answers
            .iter()
            .enumerate()
            .filter(|(n, said)| **said != Err(Refusal::WrongLength(*n)))
            .count(),
    )
}

// How often a byte too many is not refused. It is the last one, unless it stands before or among the header's first numbers: then these
// count more than there is, and the place is the length.
fn count_put_in(heap: Global, bytes: &[u8]) -> Result<usize, AllocError> {
    let answers: Vec<Verdict> = (0..=bytes.len())
        .map(|i| checked_with_byte(heap, bytes, i))
        .try_collect(heap)?;
    Ok(
        answers
            .iter()
            .enumerate()
            .filter(|(i, said)| {
                let place = bytes.len().saturating_add(usize::from(*i <= 4));
                **said != Err(Refusal::WrongLength(place))
            })
            .count(),
    )
}

// What the checker says of bytes with one more at a place.
fn checked_with_byte(heap: Global, bytes: &[u8], i: usize) -> Result<Verdict, AllocError> {
    let (before, behind) = bytes.split_at(i.min(bytes.len()));
    let mut longer = before.to_vec(heap)?;
    longer.push(0)?;
    longer.extend_from_slice(behind)?;
    checked(heap, longer.as_slice())
}

// An open fan around corner 0.
fn fan(heap: Global) -> Result<Skin, AllocError> {
    Ok(Skin {
        corners: vec![in heap; Corner::ORIGIN; MANY as usize + 2]?,
        triangles: (0..MANY)
            .map(|i| Triangle {
                corners: [0, i.wrapping_add(1), i.wrapping_add(2)],
                part: 0,
            })
            .collect(heap)?,
        parts: 1,
    })
}

fn copies(heap: Global) -> Result<Skin, AllocError> {
    let triangle = Triangle {
        corners: [0, 1, 2],
        part: 0,
    };
    Ok(Skin {
        corners: vec![in heap; Corner::ORIGIN; 3]?,
        triangles: vec![in heap; triangle; MANY as usize]?,
        parts: 1,
    })
}

// Two rims; the corners 0 and 1 are joined to the one all around, the corners 2 and 3 to the other.
fn double_fans(heap: Global) -> Result<Skin, AllocError> {
    let mut triangles = Vec::new(heap);
    for part in 0..2 {
        let (top, bottom) = (2 * part, 2 * part + 1);
        let first = 4 + RIM * part;
        for i in 0..RIM {
            let (here, next) = (first + i, first + (i + 1) % RIM);
            for corners in [[top, here, next], [bottom, next, here]] {
                triangles.push(Triangle { corners, part })?;
            }
        }
    }
    Ok(Skin {
        corners: vec![in heap; Corner::ORIGIN; 2 * RIM as usize + 4]?,
        triangles,
        parts: 2,
    })
}
