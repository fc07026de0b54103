// Whether the triangles have the numbers of their parts.
ghost use Rattle.std.specs.Prelude.{◌≡◌, ◌+◌, ◌*◌, ◌≤◌, length};
ghost use Rattle.std.specs.Result.{result_err};
ghost use Rattle.block.specs.declared.refusal.Refusal.TheVariants.{BadPart};
ghost use Rattle.mesh.specs.Bytes.{bytes_in, triangle_count, part_count, triangles_in as numbers_in};
ghost use Rattle.theory_parts.specs.Buffer.{count_in, triangles_in, parts_in};
ghost use Rattle.checker.specs.Verdict.{RingedOnce, All, PartsVerdict};
ghost use Rattle.checker.specs.Chained.{AllSound};
ghost use Rattle.checker.specs.Passes.{Checked, SameNumber};

use block::Refusal;
use mesh::Skin;

// Names the first triangle whose part has another number than by first triangle, or the number of triangles if only the count differs.
// The right numbers are written into the triangles.
pub fn check_parts(
    skin: &Skin,
    numbers: &mut [u32],
    corners: u32,
    work: &mut [u32],
) -> Result<(), Refusal>
    requires numbers { numbers.old ≡ numbers_in (bytes_in skin) }
    requires sound { AllSound numbers.old corners }
    requires ringed { All (RingedOnce (triangles_in numbers.old)) corners }
    requires room { corners ≤ length work.old }
    ensures verdict { PartsVerdict (numbers_in (bytes_in skin.entry)) (part_count (bytes_in skin.entry)) (result_err result) }
{
    let parts = part::number_skin(numbers, corners, work);
    compare_parts(skin, numbers, parts)
}

fn compare_parts(skin: &Skin, numbers: &[u32], parts: u32) -> Result<(), Refusal>
    requires { length numbers.now ≡ 4 * triangle_count (bytes_in skin) }
    ensures found { Checked (SameNumber (numbers_in (bytes_in skin.entry)) (part_count (bytes_in skin.entry)) (parts_in numbers.now) parts) (count_in numbers.now + 1) BadPart (result_err result) }
{
    let (triangles, _) = numbers.as_chunks::<4>();
    for (i, triangle) in triangles.iter().enumerate() {
        if skin.number(4 * i + 3) != triangle[3] {
            return Err(Refusal::BadPart(i));
        }
    }
    if skin.parts() != parts {
        return Err(Refusal::BadPart(triangles.len()));
    }
    Ok(())
}
