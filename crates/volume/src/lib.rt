// The volumes of a skin's parts: how many triangles each part has, and six times the volume that it encloses. Corners and triangles are
// lent as two flat buffers, as callers have them.
#![tactic(auto)]

ghost use Rattle.std.specs.Prelude.{Some, is_some, ◌≡◌, ◌+◌, ◌*◌, ◌^◌, ◌<◌, ◌≤◌, true, false, length, ℤ, ◌+ℤ◌, unsigned_abs};
ghost use Rattle.theory.specs.Grid.{pt};
ghost use Rattle.theory_volume.specs.Volume.{determinant};
ghost use Rattle.theory_volume.specs.Sizes.{crossed, most_triangles};
ghost use Rattle.theory_parts.specs.Buffer.{count_in};
ghost use Rattle.volume.specs.Buffer.{place_in, corner_count};
ghost use Rattle.volume.specs.Measure.{part_of, count_of, volume_of, all_measured, parts_of, each_below, whole, low, determinant_at, cornered, fine, measurable, Low};
ghost use Rattle.volume.specs.Bounded.{bounded};
ghost use Rattle.volume.specs.Text.{text_of};

use std::fmt;

// The largest coordinate of a skin, in 256ths of a grid step, the most triangles of one, and the largest determinant of one triangle.
const MOST_COORDINATE: u32 = 256 * 95;

const MOST_TRIANGLES: usize = 12 * 95 * 95 * 95;

const LARGEST_DETERMINANT: u64 = 1 << 34;

// A part of a skin, seen from outside or from inside. Its six volumes, in 256ths of a grid step along each axis, are above 0 exactly if it
// is seen from outside.
#[derive(Clone, Copy, PartialEq, Eq, Debug)]
pub enum Part {
    Outer { triangles: u32, six_volumes: i64 },
    Inner { triangles: u32, six_volumes: i64 },
}

// Measures the parts of a skin: writes for each how many triangles it has and the sum of their determinants, which is six times the volume
// that it encloses. Answers false, and writes nothing, where these are no corners and triangles of a skin in that many parts: a corner or a
// triangle is not whole, a corner or a part that a triangle names is not there, or something is larger than in any skin. Two passes, in time
// linear in the number of corners and triangles.
pub fn measure(corners: &[u32], triangles: &[u32], parts: &mut [Part]) -> bool
    ensures value { result ≡ measurable corners.now triangles.now (length parts.old) }
    ensures same { result ≡ false → parts.new ≡ parts.old }
    ensures written { result ≡ true → parts.new ≡ parts_of corners.now triangles.now (length parts.old) }
{
    if !measurable(corners, triangles, parts.len()) {
        return false;
    }
    measure_skin(corners, triangles, parts);
    true
}

// Measures the parts of a skin that is known, as far as `parts` has room. One pass.
pub fn measure_skin(corners: &[u32], triangles: &[u32], parts: &mut [Part])
    requires bounded { bounded corners.now triangles.now ≡ true }
    ensures written { parts.new ≡ parts_of corners.now triangles.now (length parts.old) }
{
    parts.fill(Part::new(0, 0));
    let corners = Corners {
        coordinates: corners,
    };
    for t in triangles.as_chunks::<4>().0 {
        // No `get_mut`: nothing is known of what a slice holds after a write through it.
        let owner = t[3] as usize;
        if owner < parts.len() {
            parts[owner] = parts[owner].with(corners.determinant(t));
        }
    }
}

impl Part {
    // No triangles: what stands in place of a part before it is measured.
    pub const NOTHING: Part = Part::Inner {
        triangles: 0,
        six_volumes: 0,
    };

    // How many triangles the part has.
    pub fn triangles(self) -> u32
        ensures value { result ≡ count_of self }
    {
        match self {
            Part::Outer { triangles, .. } | Part::Inner { triangles, .. } => triangles,
        }
    }

    // Six times the volume that it encloses.
    pub fn six_volumes(self) -> i64
        ensures value { result ≡ volume_of self }
    {
        match self {
            Part::Outer { six_volumes, .. } | Part::Inner { six_volumes, .. } => six_volumes,
        }
    }

    fn new(triangles: u32, six_volumes: i64) -> Part
        ensures value { result ≡ part_of triangles six_volumes }
    {
        if six_volumes > 0 {
            Part::Outer {
                triangles,
                six_volumes,
            }
        } else {
            Part::Inner {
                triangles,
                six_volumes,
            }
        }
    }

    // The part with one more triangle.
    fn with(self, determinant: i64) -> Part
        requires few { count_of self < most_triangles }
        requires fits { unsigned_abs (volume_of self) ≤ 2 ^ 58 }
        requires small { unsigned_abs determinant ≤ 2 ^ 34 }
        ensures value { result ≡ part_of (count_of self + 1) (volume_of self +ℤ determinant) }
    {
        Part::new(self.triangles() + 1, self.six_volumes() + determinant)
    }
}

impl fmt::Display for Part {
    ghost output = { λ p. Some (text_of p) };

    fn fmt<W: fmt::Write>(&self, f: &mut fmt::Formatter<W>) -> fmt::Result {
        let side = match self {
            Part::Outer { .. } => "outer",
            Part::Inner { .. } => "inner",
        };
        let triangles = self.triangles();
        let six_volumes = self.six_volumes();
        write!(f, "{side} triangles {triangles} six volumes {six_volumes}")
    }
}

// Whether these are the corners and triangles of a skin in so many parts.
fn measurable(corners: &[u32], triangles: &[u32], parts: usize) -> bool
    ensures value { result ≡ measurable corners.now triangles.now parts }
{
    if !whole(corners, triangles) {
        return false;
    }
    let Some(corners) = Corners::low(corners) else {
        return false;
    };
    triangles
        .as_chunks::<4>()
        .0
        .iter()
        .all(|t| corners.fine(t, parts))
}

// Whether there are whole corners and whole triangles, and no more of these than a skin can have.
fn whole(corners: &[u32], triangles: &[u32]) -> bool
    ensures value { result ≡ whole corners.now triangles.now }
{
    corners.len() % 3 == 0 && triangles.len() % 4 == 0 && triangles.len() / 4 <= MOST_TRIANGLES
}

// Corners of which no coordinate is larger than one of a skin.
#[derive(Drop)]
struct Corners<'a> {
    coordinates: &'a [u32],
    ghost low: { Low coordinates.now },
}

impl<'a> Corners<'a> {
    // The corners with these coordinates, if they are low.
    fn low(coordinates: &'a [u32]) -> Option<Self>
        ensures value { is_some result ≡ each_below (length coordinates.now) (low coordinates.now) }
        ensures same { (c : _) → result ≡ Some c → c.coordinates.now ≡ coordinates.now }
    {
        if coordinates.iter().all(|x| *x <= MOST_COORDINATE) {
            Some(Corners { coordinates })
        } else {
            None
        }
    }

    // The place of the corner with a number.
    fn place(&self, corner: u32) -> Place
        requires there { corner < corner_count self.now.coordinates.now }
        ensures value { pt result.x result.y result.z ≡ place_in self.now.coordinates.now corner }
    {
        let [x, y, z] = self.coordinates.as_chunks::<3>().0[corner as usize];
        Place {
            x: x as u16,
            y: y as u16,
            z: z as u16,
        }
    }

    // The determinant of a triangle.
    fn determinant(&self, triangle: &[u32; 4]) -> i64
        requires cornered { cornered self.now.coordinates.now triangle.now 0 ≡ true }
        ensures value { result ≡ determinant_at self.now.coordinates.now triangle.now 0 }
    {
        let [a, b, c, _] = *triangle;
        determinant(self.place(a), self.place(b), self.place(c))
    }

    // Whether the numbers of a triangle's corners are in use.
    fn cornered(&self, triangle: &[u32; 4]) -> bool
        ensures value { result ≡ cornered self.now.coordinates.now triangle.now 0 }
    {
        let count = self.coordinates.len() / 3;
        let [a, b, c, _] = *triangle;
        (a as usize) < count && (b as usize) < count && (c as usize) < count
    }

    // Whether a triangle can be measured: its corners and its part are there, and its determinant is no larger than one of a skin.
    fn fine(&self, triangle: &[u32; 4], parts: usize) -> bool
        ensures value { result ≡ fine self.now.coordinates.now triangle.now parts 0 }
    {
        self.cornered(triangle)
            && (triangle[3] as usize) < parts
            && self.determinant(triangle).unsigned_abs() <= LARGEST_DETERMINANT
    }
}

// Where a corner lies.
#[derive(Clone, Copy)]
struct Place {
    x: u16,
    y: u16,
    z: u16,
}

// The determinant of three places: the first row times the vector product of the others.
fn determinant(a: Place, b: Place, c: Place) -> i64
    ensures value { result ≡ determinant (pt a.x a.y a.z) (pt b.x b.y b.z) (pt c.x c.y c.z) }
    ensures bound { unsigned_abs result ≤ 2 ^ 50 }
{
    let x = a.x as i64 * crossed(b.y, b.z, c.y, c.z);
    let y = a.y as i64 * crossed(b.z, b.x, c.z, c.x);
    let z = a.z as i64 * crossed(b.x, b.y, c.x, c.y);
    x + y + z
}

// One coordinate of the vector product of two rows.
fn crossed(e: u16, g: u16, i: u16, j: u16) -> i64
    ensures value { result ≡ crossed e g i j }
    ensures bound { unsigned_abs result ≤ 2 ^ 32 }
{
    e as i64 * j as i64 - g as i64 * i as i64
}
