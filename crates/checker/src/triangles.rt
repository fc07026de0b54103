// Whether each triangle has three corners, all different and in range.
ghost use Rattle.std.specs.Prelude.{◌≡◌, ◌<◌, true, ◌↔◌};
ghost use Rattle.std.specs.Result.{result_err};
ghost use Rattle.block.specs.declared.refusal.Refusal.TheVariants.{BadTriangle};
ghost use Rattle.theory.specs.Triangle.{tri};
ghost use Rattle.theory_parts.specs.Buffer.{triangle_at, count_in};
ghost use Rattle.checker.specs.Verdict.{Sound};
ghost use Rattle.checker.specs.Passes.{Checked};

use block::Refusal;

// Names the first triangle with a corner out of range, or with a corner twice.
pub fn check_triangles(numbers: &[u32], corners: u32) -> Result<(), Refusal>
    ensures found { Checked (λ i. Sound corners (triangle_at numbers.now i)) (count_in numbers.now) BadTriangle (result_err result) }
{
    let (triangles, _) = numbers.as_chunks::<4>();
    for (i, [a, b, c, _]) in triangles.iter().enumerate() {
        if !is_sound(*a, *b, *c, corners) {
            return Err(Refusal::BadTriangle(i));
        }
    }
    Ok(())
}

fn is_sound(a: u32, b: u32, c: u32, corners: u32) -> bool
    ensures value { (result ≡ true) ↔ Sound corners (tri a b c) }
{
    a < corners && b < corners && c < corners && a != b && b != c && c != a
}
