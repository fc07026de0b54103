// A skin as the printer's bytes: read, a number at a time, and written, at once or as one goes, from and to flat buffers of the caller's.
#![tactic(auto)]

ghost use Rattle.std.specs.Prelude.{◌≡◌, ℕ, ◌+◌, ◌*◌, ◌^◌, ◌<◌, ◌≤◌, length, take, IfSome, Some, None, MatchResult, slice_index};
ghost use Rattle.std.specs.List.{flat_map};
ghost use Rattle.mesh.specs.Bytes.{bytes_in, short_at, number_at, corner_count, triangle_count, part_count, coordinates_in, triangles_in, length_fault, Counted, Said};
ghost use Rattle.mesh.specs.Written.{low_bytes, header_bytes, corner_bytes, triangle_bytes, all_below, writable, written, buffer_after, Holds, Taken, ReadBack, WrittenBack};

use block::Refusal;

// How many bytes the header has.
const HEADER: usize = 12;

// How much four bytes can count.
const MOST: usize = u32::MAX as usize;

// How many corners, triangles and parts a skin says that it has.
#[derive(Clone, Copy, PartialEq, Eq, Debug)]
pub struct Header {
    pub corners: u32,
    pub triangles: u32,
    pub parts: u32,
}

impl Header {
    // The header of these bytes, or a refusal where they are too few or too many. Constant time.
    pub fn read(bytes: &[u8]) -> Result<Header, Refusal>
        ensures cases { MatchResult result (λ h. Counted bytes.now h.corners h.triangles h.parts) (λ e. length_fault bytes.now ≡ Some e) }
    {
        // What follows would refuse them too; it is tested first so that whoever reads on from here need not ask for the header's bytes again.
        if bytes.len() < HEADER {
            return Err(Refusal::WrongLength(bytes.len()));
        }
        let header = Header::said_in(bytes);
        let end = header.behind_corners() + 16 * header.triangles as usize;
        if bytes.len() != end {
            return Err(Refusal::WrongLength(bytes.len().min(end)));
        }
        Ok(header)
    }

    // What the first bytes say, right or wrong.
    fn said_in(bytes: &[u8]) -> Header
        ensures { Said bytes.now result.corners result.triangles result.parts }
    {
        Header {
            corners: number(bytes, 0),
            triangles: number(bytes, 4),
            parts: number(bytes, 8),
        }
    }

    // Where the triangles begin.
    fn behind_corners(&self) -> usize
        ensures { result ≡ 12 + 6 * self.now.corners }
    {
        HEADER + 6 * self.corners as usize
    }
}

// The bytes of a skin that was read. It borrows them, and copies nothing.
#[derive(Clone, Copy)]
pub struct Skin<'a> {
    pub bytes: &'a [u8],
}

impl<'a> Skin<'a> {
    // The skin in these bytes, or a refusal where they are too few or too many. Constant time.
    pub fn read(bytes: &'a [u8]) -> Result<Skin<'a>, Refusal>
        ensures cases { MatchResult result (λ k. (k.bytes.now ≡ bytes.now) × Taken bytes.now) (λ e. length_fault bytes.now ≡ Some e) }
    {
        Header::read(bytes)?;
        Ok(Skin { bytes })
    }

    // How many corners there are.
    pub fn corners(&self) -> u32
        ensures value { result ≡ corner_count (bytes_in self.entry) }
    {
        number(self.bytes, 0)
    }

    // How many triangles there are.
    pub fn triangles(&self) -> u32
        ensures value { result ≡ triangle_count (bytes_in self.entry) }
    {
        number(self.bytes, 4)
    }

    // How many parts there are.
    pub fn parts(&self) -> u32
        ensures value { result ≡ part_count (bytes_in self.entry) }
    {
        number(self.bytes, 8)
    }

    // A coordinate, of which each corner has three; 0 past the last. Constant time.
    pub fn coordinate(&self, i: usize) -> u32
        ensures value { result ≡ slice_index (coordinates_in (bytes_in self.entry)) i }
    {
        if i < 3 * self.corners() as usize {
            u32::from(short(self.bytes, HEADER + 2 * i))
        } else {
            0
        }
    }

    // A number of a triangle, of which each has four, its three corners and its part; 0 past the last. Constant time.
    pub fn number(&self, i: usize) -> u32
        ensures value { result ≡ slice_index (triangles_in (bytes_in self.entry)) i }
    {
        if i < 4 * self.triangles() as usize {
            number(self.bytes, HEADER + 6 * self.corners() as usize + 4 * i)
        } else {
            0
        }
    }

    // Copies the numbers of all triangles into a buffer of just that length. Linear time.
    pub fn copy_numbers(&self, numbers: &mut [u32])
        requires { length numbers.old ≡ 4 * triangle_count (bytes_in self) }
        ensures after { numbers.new ≡ triangles_in (bytes_in self.entry) }
    {
        let from = Header::said_in(self.bytes).behind_corners();
        for (i, copy) in numbers.iter_mut().enumerate() {
            *copy = number(self.bytes, from + 4 * i);
        }
    }
}

// Writes a skin at the front of `out`, from three coordinates for each corner and four numbers for each triangle, and says how many
// bytes that took. None, with `out` unchanged, where it cannot be done: the numbers are not whole corners and whole triangles, or
// more than four bytes can count, a coordinate is above 65535, or `out` is too short. Linear time.
pub fn write(corners: &[u32], triangles: &[u32], parts: u32, out: &mut [u8]) -> Option<usize>
    ensures value { result ≡ written corners.now triangles.now (length out.old) }
    ensures after { out.new ≡ buffer_after corners.now triangles.now parts out.old }
    ensures held { IfSome result (λ n. Holds (take n out.new) corners.now triangles.now parts) }
{
    if !writable(corners, triangles, out.len()) {
        return None;
    }
    let header = header_bytes(
        (corners.len() / 3) as u32,
        (triangles.len() / 4) as u32,
        parts,
    );
    let corner_end = HEADER + 2 * corners.len();
    let end = corner_end + 4 * triangles.len();
    out[0..HEADER].copy_from_slice(&header);
    put_low_bytes::<2>(corners, &mut out[HEADER..corner_end]);
    put_low_bytes::<4>(triangles, &mut out[corner_end..end]);
    Some(end)
}

// The first bytes of a skin.
pub fn header_bytes(corners: u32, triangles: u32, parts: u32) -> [u8; 12]
    ensures value { result ≡ header_bytes corners triangles parts }
{
    joined([corners, triangles, parts].map(u32::to_le_bytes))
}

// The bytes of a corner.
pub fn corner_bytes(x: u16, y: u16, z: u16) -> [u8; 6]
    ensures value { result ≡ corner_bytes x y z }
{
    joined([x, y, z].map(u16::to_le_bytes))
}

// The bytes of a triangle, by its corners' numbers and its part's.
pub fn triangle_bytes(a: u32, b: u32, c: u32, part: u32) -> [u8; 16]
    ensures value { result ≡ triangle_bytes a b c part }
{
    joined([a, b, c, part].map(u32::to_le_bytes))
}

// What was written is read back: a skin whose numbers are in range is in its bytes.
pub fn reading_undoes_writing() -> u8
    ensures { ReadBack }
{
    0
}

// What was read is written back: bytes that are taken are the bytes of the skin in them.
pub fn writing_undoes_reading() -> u8
    ensures { WrittenBack }
{
    0
}

fn writable(corners: &[u32], triangles: &[u32], room: usize) -> bool
    ensures value { result ≡ writable corners.now triangles.now room }
{
    let (n, m) = (corners.len(), triangles.len());
    n % 3 == 0
        && n / 3 <= MOST
        && m % 4 == 0
        && m / 4 <= MOST
        && HEADER + (2 * n + 4 * m) <= room
        && all_short(corners)
}

fn all_short(coordinates: &[u32]) -> bool
    ensures { result ≡ all_below 65536 coordinates.now }
{
    coordinates.iter().all(|x| *x < 65536)
}

// The bytes of some numbers, one number after the other.
fn joined<const WIDTH: usize, const COUNT: usize, const LENGTH: usize>(
    numbers: [[u8; WIDTH]; COUNT],
) -> [u8; LENGTH]
    requires { COUNT * WIDTH ≡ LENGTH }
    ensures { result ≡ flat_map (λ bytes. bytes) numbers.entry }
{
    let mut bytes = [0; LENGTH];
    bytes.copy_from_slice(numbers.as_flattened());
    bytes
}

// Writes the N low bytes of each number, the lowest first; by places, since nothing is known of what is written through
// `chunks_exact_mut`.
fn put_low_bytes<const N: usize>(numbers: &[u32], out: &mut [u8])
    requires few { N ≤ 4 }
    requires room { length out.old ≡ N * length numbers.now }
    ensures after { out.new ≡ flat_map (low_bytes N) numbers.now }
{
    for (i, number) in numbers.iter().enumerate() {
        out[N * i..N * i + N].copy_from_slice(&number.to_le_bytes()[..N]);
    }
}

// The number in four bytes, the low byte first.
fn number(bytes: &[u8], at: usize) -> u32
    requires { at + 4 < 2 ^ 64 }
    ensures value { result ≡ number_at bytes.now at }
{
    u32::from_le_bytes(bytes_at(bytes, at))
}

// The number in two bytes, likewise.
fn short(bytes: &[u8], at: usize) -> u16
    requires { at + 2 < 2 ^ 64 }
    ensures value { result ≡ short_at bytes.now at }
{
    u16::from_le_bytes(bytes_at(bytes, at))
}

// The N bytes from a place on; one that is not there counts as 0. Most often all are there, and one test serves. Else a loop, since of
// `array::from_fn` it is left open what state a call of its closure leaves. Bytes and place are two, here and in what asks for this: a
// place may lie behind the end, where no slice begins.
fn bytes_at<const N: usize>(bytes: &[u8], at: usize) -> [u8; N]
    requires { at + N < 2 ^ 64 }
    ensures value { (k : ℕ) → k < N → slice_index result k ≡ slice_index bytes.now (at + k) }
{
    let mut found = [0; N];
    if at + N <= bytes.len() {
        found.copy_from_slice(&bytes[at..at + N]);
        return found;
    }
    for (k, byte) in found.iter_mut().enumerate() {
        *byte = bytes.get(at + k).copied().unwrap_or(0);
    }
    found
}

#[cfg(test)]
mod tests {
    use super::*;
    use std::test::Fail;

    // A tetrahedron: four corners, and the four triangles between them, of one part. Its bytes: the header, then a line for each.
    const CORNERS: [u32; 12] = [0, 0, 0, 256, 0, 0, 0, 513, 0, 0, 0, 65535];

    const TRIANGLES: [u32; 16] = [0, 2, 1, 0, 0, 1, 3, 0, 0, 3, 2, 0, 1, 2, 3, 0];

    const BYTES: [u8; 100] = [
        4, 0, 0, 0, 4, 0, 0, 0, 1, 0, 0, 0, 0, 0, 0, 0, 0, 0, 0, 1, 0, 0, 0, 0, 0, 0, 1, 2, 0, 0,
        0, 0, 0, 0, 255, 255, 0, 0, 0, 0, 2, 0, 0, 0, 1, 0, 0, 0, 0, 0, 0, 0, 0, 0, 0, 0, 1, 0, 0,
        0, 3, 0, 0, 0, 0, 0, 0, 0, 0, 0, 0, 0, 3, 0, 0, 0, 2, 0, 0, 0, 0, 0, 0, 0, 1, 0, 0, 0, 2,
        0, 0, 0, 3, 0, 0, 0, 0, 0, 0, 0,
    ];

    #[test]
    fn a_tetrahedron_is_written(rt: HostRuntime) {
        let mut out = [7; 101];
        assert_eq!(rt; write(&CORNERS, &TRIANGLES, 1, &mut out), Some(100));
        assert_eq!(rt; &out[0..100], BYTES.as_slice());
        assert_eq!(rt; out[100], 7);
    }

    #[test]
    fn a_tetrahedron_is_read(rt: HostRuntime) -> Result<(), Fail> {
        let skin = Skin::read(&BYTES)?;
        for (i, x) in CORNERS.iter().enumerate() {
            assert_eq!(rt; skin.coordinate(i), *x);
        }
        for (i, number) in TRIANGLES.iter().enumerate() {
            assert_eq!(rt; skin.number(i), *number);
        }
        assert_eq!(rt; (skin.corners(), skin.triangles(), skin.parts()), (4, 4, 1));
        assert_eq!(rt; (skin.coordinate(12), skin.number(16)), (0, 0));
        Ok(())
    }

    #[test]
    fn what_cannot_be_written(rt: HostRuntime) {
        let mut out = [7; 100];
        assert_eq!(rt; write(&CORNERS, &TRIANGLES, 1, &mut out[0..99]), None);
        assert_eq!(rt; write(&CORNERS[0..11], &TRIANGLES, 1, &mut out), None);
        assert_eq!(rt; write(&CORNERS, &TRIANGLES[0..15], 1, &mut out), None);
        assert_eq!(rt; write(&[0, 0, 65536], &[], 1, &mut out), None);
        assert_eq!(rt; out[0], 7);
    }
}
