// Ways to damage a skin.
use crate::random::Random;
use crate::skin::{Corner, Skin, Triangle, count};
use std::alloc::AllocError;

// A triangle is named by its place in the order, a corner and a part by its number.
#[derive(Clone, Copy)]
pub enum Damage {
    // The triangle is left out.
    Dropped(usize),
    // The triangle stands at the end once more.
    Doubled(usize),
    // The triangle runs the other way.
    Turned(usize),
    // The triangle's second corner is its first.
    Repeated(usize),
    // The triangle's first corner is another.
    Renumbered(usize, u32),
    // The triangle is in another part.
    Moved(usize, u32),
    // In every triangle the second corner gives way to the first.
    Welded(u32, u32),
    // The two parts exchange their numbers.
    Exchanged(u32, u32),
    // The header counts so many parts.
    Counted(u32),
    // There is one corner more, in no triangle.
    Loose,
}

impl Damage {
    // Damages a skin, where it has what is to be damaged.
    pub fn apply(self, skin: &mut Skin) -> Result<(), AllocError> {
        match self {
            Damage::Dropped(i) => {
                if i < skin.triangles.len() {
                    let _ = skin.triangles.remove(i);
                }
            }
            Damage::Doubled(i) => {
                if let Some(t) = skin.triangles.get(i).copied() {
                    skin.triangles.push(t)?;
                }
            }
            Damage::Turned(i)
            | Damage::Repeated(i)
            | Damage::Renumbered(i, _)
            | Damage::Moved(i, _) => {
                if let Some(t) = skin.triangles.get_mut(i) {
                    *t = self.changed(*t);
                }
            }
            Damage::Welded(..) | Damage::Exchanged(..) => {
                for t in skin.triangles.iter_mut() {
                    *t = self.changed(*t);
                }
            }
            Damage::Counted(parts) => skin.parts = parts,
            Damage::Loose => skin.corners.push(Corner::ORIGIN)?,
        }
        Ok(())
    }

    // What becomes of a triangle that is damaged.
    fn changed(self, t: Triangle) -> Triangle {
        let [a, b, c] = t.corners;
        match self {
            Damage::Turned(_) => Triangle {
                corners: [a, c, b],
                ..t
            },
            Damage::Repeated(_) => Triangle {
                corners: [a, a, c],
                ..t
            },
            Damage::Renumbered(_, a) => Triangle {
                corners: [a, b, c],
                ..t
            },
            Damage::Moved(_, part) => Triangle { part, ..t },
            Damage::Welded(to, from) => Triangle {
                corners: t
                    .corners
                    .map(|corner| if corner == from { to } else { corner }),
                ..t
            },
            Damage::Exchanged(one, other) if t.part == one => Triangle { part: other, ..t },
            Damage::Exchanged(one, other) if t.part == other => Triangle { part: one, ..t },
            _ => t,
        }
    }

    // Any one of these, at a place in the skin.
    pub fn any(random: &mut Random, skin: &Skin) -> Damage {
        let i = random.below(skin.triangles.len());
        let corner = count(random.below(skin.corners.len()));
        let other = count(random.below(skin.corners.len().saturating_add(1)));
        let part = count(random.below(skin.triangles.len().min(3)));
        match random.below(12) {
            0 => Damage::Dropped(i),
            1 => Damage::Doubled(i),
            2 => Damage::Turned(i),
            3 => Damage::Repeated(i),
            4 => Damage::Renumbered(i, other),
            5 => Damage::Moved(i, part),
            6 => Damage::Exchanged(0, part),
            7 => Damage::Counted(part),
            8 => Damage::Loose,
            _ => Damage::Welded(corner, other),
        }
    }
}
