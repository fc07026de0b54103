// Random blocks through builder, parts, volumes, bytes and checker, beside what their points alone say and the slow survey.
use crate::expected::{
    count_crossings, count_regions, lie_apart, lie_on_crossings, parts_of, six_volumes,
};
use crate::made::{Made, checked};
use crate::random::{Kind, Pattern, Random, Spread};
use crate::scan::Scan;
use crate::skin::Skin;
use crate::survey::surveyed;
use anyhow::ensure;
use std::alloc::Global;
use volume::Part;

const SEED: u64 = 0x9e37_79b9_7f4a_7c15;

const BLOCKS: u32 = 400;

const MOST: u8 = 12;

// The survey takes time quadratic in triangles, and in corners times points: it is left out for skins and blocks larger than this.
const SURVEYED_TRIANGLES: usize = 600;

const SURVEYED_BYTES: usize = 600;

const PATTERNS: [Pattern; 4] = [Pattern::Half, Pattern::Few, Pattern::Most, Pattern::Shells];

const SPREADS: [Spread; 2] = [Spread::Any, Spread::Near];

// Runs every kind of block, prints a line for each, and says how many blocks differ.
pub fn run(rt: &HostRuntime) -> anyhow::Result<u32> {
    let mut random = Random(SEED);
    let mut differences = 0u32;
    for pattern in PATTERNS {
        for spread in SPREADS {
            let kind = Kind {
                pattern,
                spread,
                most: MOST,
            };
            differences = differences.saturating_add(run_kind(rt, &mut random, kind)?);
        }
    }
    Ok(differences)
}

fn run_kind(rt: &HostRuntime, random: &mut Random, kind: Kind) -> anyhow::Result<u32> {
    let mut totals = Totals::default();
    for n in 0..BLOCKS {
        let scan = kind.scan(rt.alloc(), random, n)?;
        if let Err(what) = totals.compare(rt.alloc(), &scan) {
            println!(rt; "block {n} of {kind}: {what}")?;
            totals.differences = totals.differences.saturating_add(1);
        }
    }
    let Totals {
        surveyed,
        triangles,
        differences,
    } = totals;
    println!(rt;
        "{kind}: {BLOCKS} blocks, {surveyed} surveyed, {triangles} triangles, {differences} differences"
    )?;
    Ok(differences)
}

// How many blocks were small enough for the survey, how many triangles all have, and how many blocks differ.
#[derive(Clone, Copy, Default)]
struct Totals {
    surveyed: u32,
    triangles: usize,
    differences: u32,
}

impl Totals {
    // Counts a block, or says the first thing in which the libraries differ from what is found by other means.
    fn compare(&mut self, heap: Global, scan: &Scan) -> anyhow::Result<()> {
        let bytes = scan.bytes(heap)?;
        let made = Made::of(heap, bytes.as_slice())?;
        let written = made.bytes(heap)?;
        let verdict = checked(heap, written.as_slice())?;
        ensure!(verdict.is_ok(), "the checker refuses it");
        let skin = Skin::read(heap, written.as_slice())?;
        self.triangles = self.triangles.saturating_add(skin.triangles.len());
        compare_counts(heap, scan, &made, &skin)?;
        if skin.triangles.len() <= SURVEYED_TRIANGLES && bytes.len() <= SURVEYED_BYTES {
            self.surveyed = self.surveyed.saturating_add(1);
            compare_survey(heap, scan, &made, &skin)?;
        }
        Ok(())
    }
}

// What can be compared in linear time. A part of the wrong sign is neither outer nor inner.
fn compare_counts(heap: Global, scan: &Scan, made: &Made, skin: &Skin) -> anyhow::Result<()> {
    ensure!(
        skin.corners.len() == count_crossings(scan),
        "another number of corners than of crossings"
    );
    let parts = made.parts.as_slice();
    let outer = parts
        .iter()
        .filter(|part| matches!(part, Part::Outer { six_volumes, .. } if *six_volumes > 0))
        .count();
    let inside = count_regions(heap, scan, |p| scan.is_inside(p))?;
    ensure!(
        outer == inside,
        "another number of outer parts than of regions inside"
    );
    let inner = parts
        .iter()
        .filter(|part| matches!(part, Part::Inner { six_volumes, .. } if *six_volumes < 0))
        .count();
    let outside = count_regions(heap, scan, |p| !scan.is_inside(p))?;
    ensure!(
        inner.saturating_add(1) == outside,
        "another number of inner parts than of regions outside but one"
    );
    let sum = parts
        .iter()
        .fold(0i64, |sum, part| sum.wrapping_add(part.six_volumes()));
    ensure!(
        sum == six_volumes(skin),
        "volumes of parts that do not add up"
    );
    Ok(())
}

// What takes a survey.
fn compare_survey(heap: Global, scan: &Scan, made: &Made, skin: &Skin) -> anyhow::Result<()> {
    let written = skin.bytes(heap)?;
    let verdict = surveyed(heap, written.as_slice())?;
    ensure!(verdict.is_ok(), "the survey finds a rule in fault");
    let corners = skin.corners.as_slice();
    ensure!(lie_apart(corners), "two corners at one place");
    ensure!(
        lie_on_crossings(scan, corners),
        "a step with the wrong corners on it"
    );
    let parts = parts_of(heap, skin)?;
    ensure!(
        parts.as_slice() == made.parts.as_slice(),
        "a part with another sum"
    );
    Ok(())
}
