// A round: all stages of the work on a block, one after the other, each timed on its own.
use anyhow::{anyhow, ensure};
use block::Block;
use checker::{check, work_needed};
use mesh::{corner_bytes, header_bytes, triangle_bytes};
use part::number_parts;
use skins::Skin;
use std::alloc::{AllocError, Global};
use std::io;
use std::io::{BufWriter, Write};
use std::time::{Duration, Instant};
use triangle::{build, needed};
use volume::{Part, measure};
use whole::{Made, make_skin};

// How many spans a round has: of its eight stages, and of those that a caller waits for.
const SPANS: usize = 9;

// What the stages write to, just as long as the block wants it: made once, so that no stage waits for fresh memory.
#[derive(Drop)]
pub struct Buffers {
    corners: Vec<u32>,
    triangles: Vec<u32>,
    work: Vec<u32>,
    parts: Vec<Part>,
    bytes: Vec<u8>,
    space: Vec<u32>,
}

// What a round found, and how long its stages took, by their names.
#[derive(Clone, Copy)]
pub struct Outcome {
    pub made: Made,
    pub spans: [(&'static str, Duration); SPANS],
}

impl Outcome {
    // How long a stage took; 0 past the last.
    fn nanos(&self, stage: usize) -> u64 {
        match self.spans.get(stage) {
            Some((_, time)) => u64::try_from(time.as_nanos()).unwrap_or(u64::MAX),
            None => 0,
        }
    }
}

impl Buffers {
    pub fn new(heap: Global, bytes: &[u8]) -> anyhow::Result<Buffers> {
        let room = needed(bytes).map_err(|_| anyhow!("not a block"))?;
        // How many parts there are is known of a skin that was made; it is let go at once.
        let parts = Skin::of(heap, bytes)?.made.parts;
        let (corners, triangles) = (room.corners as usize, room.triangles as usize);
        Ok(Buffers {
            corners: vec![in heap; 0; 3 * corners]?,
            triangles: vec![in heap; 0; 4 * triangles]?,
            work: vec![in heap; 0; 6 * Block { bytes }.points()]?,
            parts: vec![in heap; Part::NOTHING; parts as usize]?,
            bytes: vec![in heap; 0; 12 + 6 * corners + 16 * triangles]?,
            space: vec![in heap; 0; work_needed(room.corners, room.triangles)]?,
        })
    }

    // Each round builds again, since the parts' numbers are written over its triangles. No stage refuses what the one before it made.
    pub fn round(&mut self, rt: &HostRuntime, bytes: &[u8]) -> anyhow::Result<Outcome> {
        let (corners, triangles) = (&mut self.corners, &mut self.triangles);
        let (work, parts) = (&mut self.work, &mut self.parts);
        let (room, counting) = timed(rt, || needed(bytes))?;
        let (built, building) = timed(rt, || build(bytes, corners, triangles, work))?;
        let counts = built.map_err(|_| anyhow!("not built"))?;
        let (numbered, numbering) = timed(rt, || number_parts(triangles, counts.corners, work))?;
        let count = numbered.ok_or_else(|| anyhow!("not numbered"))?;
        let (measured, volumes) = timed(rt, || measure(corners, triangles, parts))?;
        let (written, writing) = timed(
            rt,
            || mesh::write(corners, triangles, count, &mut self.bytes),
        )?;
        let (verdict, checking) = timed(rt, || check(&self.bytes, &mut self.space))?;
        let (made, making) = timed(rt, || make_skin(bytes, corners, triangles, work, parts))?;
        let made = made.map_err(|_| anyhow!("not made"))?;
        let (streamed, streaming) = timed(rt, || stream(rt.alloc(), made, corners, triangles))?;
        streamed?;
        ensure!(
            room.is_ok() && measured && written.is_some() && verdict.is_ok(),
            "not measured, written and accepted"
        );
        let whole = counting.saturating_add(making).saturating_add(streaming);
        Ok(Outcome {
            made,
            spans: [
                ("counting", counting),
                ("building", building),
                ("parts", numbering),
                ("volumes", volumes),
                ("bytes", writing),
                ("checking", checking),
                ("making", making),
                ("streaming", streaming),
                ("whole", whole),
            ],
        })
    }
}

// What a stage gives, and how long it took.
fn timed<T: Drop, F: FnOnce() -> T>(rt: &HostRuntime, stage: F) -> io::Result<(T, Duration)>
    requires { F.IsAlwaysCallable stage }
{
    let start = Instant::now(rt)?;
    let outcome = stage();
    Ok((outcome, start.elapsed(rt)?))
}

// The bytes of the skin in these buffers as `skin` writes them, to nowhere. A `Skin` is not made of them: it would hold them a second time.
fn stream(heap: Global, made: Made, corners: &[u32], triangles: &[u32]) -> io::Result<()> {
    let mut to = BufWriter::new(heap, io::sink())?;
    to.write_all(&header_bytes(made.corners, made.triangles, made.parts))?;
    for [x, y, z] in corners.as_chunks::<3>().0 {
        to.write_all(&corner_bytes(short(*x), short(*y), short(*z)))?;
    }
    for [a, b, c, part] in triangles.as_chunks::<4>().0 {
        to.write_all(&triangle_bytes(*a, *b, *c, *part))?;
    }
    to.flush()
}

// A coordinate is at most 95 times 256.
fn short(coordinate: u32) -> u16 {
    (coordinate & 0xffff) as u16
}

// The nanoseconds of one stage in each round, the least first.
pub fn sorted(heap: Global, rounds: &[Outcome], stage: usize) -> Result<Vec<u64>, AllocError> {
    let mut nanos: Vec<u64> = rounds.iter().map(|round| round.nanos(stage)).collect(heap)?;
    nanos.sort()?;
    Ok(nanos)
}
