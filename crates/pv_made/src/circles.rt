//! The outsides of circles, a constraint each.
ghost use Rattle.std.specs.Prelude.{◌≡◌, ◌++◌, ◌<◌, ◌≤◌, ◌^◌, IfOk, OnOk};
ghost use Rattle.pv_made.specs.Circles.{after_circle, circle_text, circles_text, sample_text};

use crate::draws::Draws;
use pv_expr::text::{put, put_number};
use pv_num::Memory;
use std::alloc::Global;

/// The Minibex text of a system that the number `seed` makes, with `count` constraints in two
/// variables: a point of the square from 0 to 1024 meets them where it lies outside each of `count`
/// discs.
pub fn sample_system(alloc: Global, seed: u32, count: u32) -> Result<Vec<u8>, Memory>
    requires seed { seed < 2 ^ 31 }
    requires count { 1 ≤ count }
    requires few { count ≤ 16 }
    ensures { IfOk result (λ text. text.items ≡ sample_text seed count) }
{
    let mut out = Vec::new(alloc);
    put(
        &mut out,
        b"Variables x in [0,1024], y in [0,1024];\nConstraints\n",
    )?;
    put_circles(&mut out, u64::from(seed), count)?;
    put(&mut out, b"end\n")?;
    Ok(out)
}

fn put_circles(out: &mut Vec<u8>, seed: u64, count: u32) -> Result<(), Memory>
    requires { seed < 2 ^ 31 }
    ensures { OnOk result (out.new.items ≡ out.old.items ++ circles_text count seed) }
{
    let mut draws = Draws { state: seed };
    for _ in 0..count {
        put_circle(out, &mut draws)?;
    }
    Ok(())
}

// The centre lies in the square, and the radius is from 50 to 249.
fn put_circle(out: &mut Vec<u8>, draws: &mut Draws) -> Result<(), Memory>
    requires { draws.old.state < 2 ^ 31 }
    ensures written { OnOk result (out.new.items ≡ out.old.items ++ circle_text draws.old.state) }
    ensures state { OnOk result (draws.new.state ≡ after_circle draws.old.state) }
    ensures small { OnOk result (draws.new.state < 2 ^ 31) }
{
    let x = draws.next() % 1_000;
    let y = draws.next() % 1_000;
    let radius = 50 + draws.next() % 200;
    put(out, b"(x-")?;
    put_number(out, x)?;
    put(out, b")^2+(y-")?;
    put_number(out, y)?;
    put(out, b")^2 >= ")?;
    put_number(out, radius * radius)?;
    put(out, b";\n")
}
