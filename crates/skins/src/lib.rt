// The skin of a block in memory of its own: made, and written as the printer's bytes.
#![tactic(auto)]

ghost use Rattle.std.specs.Prelude.{◌≡◌, length, None, MatchResult, OnOk};
ghost use Rattle.std.specs.Io.KnownBytes.{Appends};
ghost use Rattle.mesh.specs.Written.{skin_bytes};
ghost use Rattle.whole.specs.Finished.{Finished};
ghost use Rattle.skins.specs.Whole.{Writable, Exact};
ghost use Rattle.skins.specs.declared.Trouble.TheVariants.{Refused, NoMemory};

use block::{Block, Refusal};
use mesh::{corner_bytes, header_bytes, triangle_bytes};
use std::alloc::{AllocError, Global};
use std::io;
use std::io::Write;
use thiserror::Error;
use triangle::needed;
use volume::Part;
use whole::{Made, make_skin};

// Three coordinates for each corner, four numbers for each triangle (its corners' and its part's), and an entry for each part.
// It is so that it can be written: `made` counts what the vectors hold, and two bytes hold a coordinate.
#[derive(Drop)]
pub struct Skin {
    pub corners: Vec<u32>,
    pub triangles: Vec<u32>,
    pub parts: Vec<Part>,
    pub made: Made,
    pub ghost writable: { Writable corners.items triangles.items made },
}

// Why there is no skin.
#[derive(Clone, Copy, PartialEq, Eq, Debug, Error)]
pub enum Trouble {
    #[error("{0}")]
    Refused(Refusal),
    #[error("not enough memory for its skin")]
    NoMemory,
}

// Room for as many parts as nearly every skin has. How many there are is not known before the skin is made.
const ROOM: usize = 65536;

impl Skin {
    ghost use Rattle.skins.specs.Answer.{SkinOf, Why};

    // Makes the skin of a block in buffers just as long as it wants them; once more where it has more parts than there was room for.
    // The time of `needed`, and once or twice that of `make_skin`.
    pub fn of(heap: Global, bytes: &[u8]) -> Result<Skin, Trouble>
        ensures cases { MatchResult result (SkinOf bytes.now) (Why bytes.now) }
    {
        let mut buffers = Buffers::new(heap, bytes)?;
        let mut parts = vec![in heap; Part::NOTHING; ROOM]?;
        let mut made = buffers.make(&mut parts);
        if made.parts as usize > ROOM {
            parts = vec![in heap; Part::NOTHING; made.parts as usize]?;
            made = buffers.make(&mut parts);
        }
        parts.truncate(made.parts as usize);
        let Buffers {
            corners,
            triangles,
            ..
        } = buffers;
        Ok(Skin {
            corners,
            triangles,
            parts,
            made,
        })
    }

    // Writes the skin's bytes behind what the writer has, as they are made. Linear time.
    pub fn write_to<W: Write>(&self, to: &mut W) -> io::Result<()>
        ensures bytes { OnOk result (Appends (W.contents to.old) (W.contents to.new) (skin_bytes self.now.corners.items self.now.triangles.items self.now.made.parts)) }
    {
        to.write_all(&header_bytes(self.made.corners, self.made.triangles, self.made.parts))?;
        for [x, y, z] in self.corners.as_chunks::<3>().0 {
            to.write_all(&corner_bytes(*x as u16, *y as u16, *z as u16))?;
        }
        for [a, b, c, part] in self.triangles.as_chunks::<4>().0 {
            to.write_all(&triangle_bytes(*a, *b, *c, *part))?;
        }
        Ok(())
    }
}

// What the skin of a block is made in, just as long as it wants it.
#[derive(Drop)]
struct Buffers<'a> {
    bytes: &'a [u8],
    corners: Vec<u32>,
    triangles: Vec<u32>,
    work: Vec<u32>,
    ghost exact: { Exact bytes.now (length corners.items) (length triangles.items) (length work.items) },
}

impl<'a> Buffers<'a> {
    ghost use Rattle.skins.specs.Answer.{Why};

    // Room for the skin, which is counted first.
    fn new(heap: Global, bytes: &'a [u8]) -> Result<Buffers<'a>, Trouble>
        ensures cases { MatchResult result (λ b. b.bytes.now ≡ bytes.now) (Why bytes.now) }
    {
        let room = needed(bytes)?;
        let corners = vec![in heap; 0; 3 * room.corners as usize]?;
        let triangles = vec![in heap; 0; 4 * room.triangles as usize]?;
        let work = vec![in heap; 0; 6 * Block { bytes }.points()]?;
        Ok(Buffers {
            bytes,
            corners,
            triangles,
            work,
        })
    }

    // Makes the skin, with as many parts as there is room for. Nothing is refused: the block was taken, and the buffers are long enough.
    fn make(&mut self, parts: &mut [Part]) -> Made
        ensures same { self.new.bytes.now ≡ self.old.bytes.now }
        ensures finished { Finished self.old.bytes.now self.old.corners.items self.old.triangles.items self.old.work.items parts.old self.new.corners.items self.new.triangles.items parts.new result }
    {
        make_skin(
            self.bytes,
            &mut self.corners,
            &mut self.triangles,
            &mut self.work,
            parts,
        )
        .unwrap()
    }
}

// Written out, since a derived `From` does not say which trouble it makes.
impl From<Refusal> for Trouble {
    ghost from_gives = { λ r t. t ≡ Refused r };

    fn from(refusal: Refusal) -> Trouble {
        Trouble::Refused(refusal)
    }
}

impl From<AllocError> for Trouble {
    ghost from_gives = { λ _ t. t ≡ NoMemory };

    fn from(_: AllocError) -> Trouble {
        Trouble::NoMemory
    }
}

#[cfg(test)]
mod tests {
    use super::*;
    use checker::{check, work_needed};
    use std::test::Fail;

    // A block with one point inside, at the middle.
    const POINT: [u8; 31] = [
        3, 3, 3, 128, 0, 0, 0, 0, 0, 0, 0, 0, 0, 0, 0, 0, 0, 255, 0, 0, 0, 0, 0, 0, 0, 0, 0, 0, 0,
        0, 0,
    ];

    #[test]
    fn a_point_has_its_skin(rt: HostRuntime) -> Result<(), Fail> {
        let skin = Skin::of(rt.alloc(), &POINT)?;
        let made = Made {
            corners: 14,
            triangles: 24,
            parts: 1,
        };
        assert_eq!(rt; skin.made, made);
        assert_eq!(rt; (skin.corners.len(), skin.triangles.len()), (42, 96));
        assert!(rt; matches!(skin.parts.as_slice(), [Part::Outer { triangles: 24, .. }]));
        Ok(())
    }

    #[test]
    fn its_bytes_are_accepted(rt: HostRuntime) -> Result<(), Fail> {
        let mut bytes = vec![in rt.alloc(); 7u8]?;
        Skin::of(rt.alloc(), &POINT)?.write_to(&mut bytes)?;
        assert_eq!(rt; bytes.len(), 1 + 12 + 6 * 14 + 16 * 24);
        let mut work = vec![in rt.alloc(); 0u32; work_needed(14, 24)]?;
        assert_eq!(rt; check(&bytes.as_slice()[1..], work.as_mut_slice()), Ok(()));
        Ok(())
    }

    #[test]
    fn too_few_bytes_are_refused(rt: HostRuntime) {
        let trouble = Skin::of(rt.alloc(), &POINT[0..30]).err();
        assert_eq!(rt; trouble, Some(Trouble::Refused(Refusal::WrongLength(30))));
    }

    #[test]
    fn a_full_writer_is_an_error(rt: HostRuntime) -> Result<(), Fail> {
        let mut room = [0; 100];
        let mut to: &mut [u8] = &mut room;
        assert!(rt; Skin::of(rt.alloc(), &POINT)?.write_to(&mut to).is_err());
        Ok(())
    }
}
