// A skin as the surveys hold it: corners and triangles, read from bytes and written to bytes. It calls none of the libraries, whose
// refusals name its faults.
use block::Refusal;
use std::alloc::{AllocError, Global};
use std::array;
use thiserror::Error;

// Why a survey ends before its end.
#[derive(Debug, Drop, Error)]
pub enum Fault {
    #[error("{0}")]
    Refused(#[from] Refusal),
    #[error("not enough memory")]
    NoMemory(#[from(alloc)] AllocError),
}

// Where a corner lies, in 256ths of a grid step.
#[derive(Clone, Copy, PartialEq, Eq)]
pub struct Corner {
    pub x: u16,
    pub y: u16,
    pub z: u16,
}

impl Corner {
    pub const ORIGIN: Corner = Corner { x: 0, y: 0, z: 0 };

    fn from_le_bytes(bytes: [u8; 6]) -> Corner {
        let [x0, x1, y0, y1, z0, z1] = bytes;
        Corner {
            x: u16::from_le_bytes([x0, x1]),
            y: u16::from_le_bytes([y0, y1]),
            z: u16::from_le_bytes([z0, z1]),
        }
    }
}

// A triangle's side, as the triangle runs it.
#[derive(Clone, Copy, PartialEq, Eq)]
pub struct Side {
    pub from: u32,
    pub to: u32,
}

impl Side {
    pub fn turned(self) -> Side {
        Side {
            from: self.to,
            to: self.from,
        }
    }
}

// A triangle by its corners' numbers, and the number of its part.
#[derive(Clone, Copy)]
pub struct Triangle {
    pub corners: [u32; 3],
    pub part: u32,
}

impl Triangle {
    fn from_le_bytes(bytes: [u8; 16]) -> Triangle {
        let [a, b, c, part] = numbers::<4>(&bytes);
        Triangle {
            corners: [a, b, c],
            part,
        }
    }

    // The sides, in the order in which the triangle runs them.
    pub fn sides(self) -> [Side; 3] {
        let [a, b, c] = self.corners;
        [
            Side { from: a, to: b },
            Side { from: b, to: c },
            Side { from: c, to: a },
        ]
    }

    // Whether the triangle runs a side, and this way.
    pub fn runs(self, side: Side) -> bool {
        self.sides().contains(&side)
    }

    // Whether the two have a side in common, whichever way each of them runs it.
    pub fn meets(self, other: Triangle) -> bool {
        other
            .sides()
            .iter()
            .any(|side| self.runs(*side) || self.runs(side.turned()))
    }

    // The side across from a corner, if the triangle has that corner.
    pub fn across(self, corner: u32) -> Option<Side> {
        let [a, b, c] = self.corners;
        let [ab, bc, ca] = self.sides();
        if corner == a {
            Some(bc)
        } else if corner == b {
            Some(ca)
        } else if corner == c {
            Some(ab)
        } else {
            None
        }
    }
}

// A skin as its bytes say it.
#[derive(Drop)]
pub struct Skin {
    pub corners: Vec<Corner>,
    pub triangles: Vec<Triangle>,
    pub parts: u32,
}

impl Skin {
    // What the bytes say. They are refused at their length if they end too early, or at the first byte too many.
    pub fn read(heap: Global, bytes: &[u8]) -> Result<Skin, Fault> {
        let Some((header, body)) = bytes.split_first_chunk::<12>() else {
            return Err(Refusal::WrongLength(bytes.len()).into())
        };
        let [corners, triangles, parts] = numbers::<3>(header);
        let corner_bytes = 6 * corners as usize;
        let length = corner_bytes + 16 * triangles as usize;
        if body.len() != length {
            return Err(Refusal::WrongLength(12 + length.min(body.len())).into());
        }
        let (corners, triangles) = body.split_at(corner_bytes);
        Ok(Skin {
            corners: corners
                .as_chunks()
                .0
                .iter()
                .map(|bytes| Corner::from_le_bytes(*bytes))
                .collect(heap)?,
            triangles: triangles
                .as_chunks()
                .0
                .iter()
                .map(|bytes| Triangle::from_le_bytes(*bytes))
                .collect(heap)?,
            parts,
        })
    }

    // The bytes of the skin.
    pub fn bytes(&self, heap: Global) -> Result<Vec<u8>, AllocError> {
        let mut bytes = Vec::new(heap);
        for number in [
            count(self.corners.len()),
            count(self.triangles.len()),
            self.parts,
        ] {
            bytes.extend_from_slice(&number.to_le_bytes())?;
        }
        for corner in self.corners.iter() {
            for coordinate in [corner.x, corner.y, corner.z] {
                bytes.extend_from_slice(&coordinate.to_le_bytes())?;
            }
        }
        for t in self.triangles.iter() {
            for number in t.corners {
                bytes.extend_from_slice(&number.to_le_bytes())?;
            }
            bytes.extend_from_slice(&t.part.to_le_bytes())?;
        }
        Ok(bytes)
    }

    // Where a corner lies; at the origin, if there is no such corner.
    pub fn corner(&self, number: u32) -> Corner {
        self.corners
            .get(number as usize)
            .copied()
            .unwrap_or(Corner::ORIGIN)
    }
}

// The first numbers in bytes, of four bytes each; 0 past the last.
fn numbers<const N: usize>(bytes: &[u8]) -> [u32; N] {
    let words = bytes.as_chunks().0;
    array::from_fn(|i| words.get(i).map_or(0, |word| u32::from_le_bytes(*word)))
}

// A count as a header has it: no skin of a survey comes near the most.
pub fn count(n: usize) -> u32 {
    u32::try_from(n).unwrap_or(u32::MAX)
}
