// What the libraries make of a block, and what the checker says of a skin's bytes, in memory of their own.
use crate::survey::Verdict;
use anyhow::{Context, anyhow, ensure};
use block::Refusal;
use checker::{check, work_needed};
use mesh::Header;
use part::number_parts;
use std::alloc::{AllocError, Global};
use triangle::{build, needed};
use volume::{Part, measure};

// What stands for a part before it is measured.
// How much a skin has, three coordinates for each corner, four numbers for each triangle, and what each part measures.
#[derive(Drop)]
pub struct Made {
    pub header: Header,
    pub corners: Vec<u32>,
    pub triangles: Vec<u32>,
    pub parts: Vec<Part>,
}

impl Made {
    // The skin of a block, from builder to volumes.
    pub fn of(heap: Global, bytes: &[u8]) -> anyhow::Result<Made> {
        let room = needed(bytes).map_err(refused)?;
        let mut corners = vec![in heap; 0u32; 3 * room.corners as usize]?;
        let mut triangles = vec![in heap; 0u32; 4 * room.triangles as usize]?;
        let mut work = vec![in heap; 0u32; bytes.len().saturating_mul(6)]?;
        let counts = build(
            bytes,
            corners.as_mut_slice(),
            triangles.as_mut_slice(),
            work.as_mut_slice(),
        )
        .map_err(refused)?;
        let count = number_parts(
            triangles.as_mut_slice(),
            counts.corners,
            work.as_mut_slice(),
        )
        .context("a library does not number its parts")?;
        let mut parts = vec![in heap; Part::NOTHING; count as usize]?;
        let measured = measure(
            corners.as_slice(),
            triangles.as_slice(),
            parts.as_mut_slice(),
        );
        ensure!(measured, "a library does not measure its parts");
        Ok(Made {
            // Of two sorts of count, which share two names.
            header: Header {
                corners: counts.corners,
                triangles: counts.triangles,
                parts: count,
            },
            corners,
            triangles,
            parts,
        })
    }

    // The printer's bytes.
    pub fn bytes(&self, heap: Global) -> anyhow::Result<Vec<u8>> {
        let Header {
            corners,
            triangles,
            parts,
        } = self.header;
        let length = 12 + 6 * corners as usize + 16 * triangles as usize;
        let mut out = vec![in heap; 0u8; length]?;
        let corners = self.corners.as_slice();
        let triangles = self.triangles.as_slice();
        let written = mesh::write(corners, triangles, parts, out.as_mut_slice());
        ensure!(
            written == Some(length),
            "a library does not write its bytes"
        );
        Ok(out)
    }
}

fn refused(refusal: Refusal) -> anyhow::Error {
    anyhow!("a library says {refusal}")
}

// What the checker says of bytes, with just as much work as it needs. A refusal is an answer here, beside which memory can run out.
pub fn checked(heap: Global, bytes: &[u8]) -> Result<Verdict, AllocError> {
    match Header::read(bytes) {
        Ok(header) => checked_with(heap, bytes, work_needed(header.corners, header.triangles)),
        Err(refusal) => Ok(Err(refusal)),
    }
}

// What the checker says of bytes, with so much work.
pub fn checked_with(heap: Global, bytes: &[u8], length: usize) -> Result<Verdict, AllocError> {
    let mut work = vec![in heap; 0u32; length]?;
    Ok(check(bytes, work.as_mut_slice()))
}
