//! `svg`: the picture of a plane of a paving file.
ghost use Rattle.std.specs.Prelude.{◌≡◌, ◌≢◌, IfOk, IfErr, IsTrue, MatchOption, false, length};
ghost use Rattle.pv_slope.specs.Methods.{method_of, dims_of};
ghost use Rattle.pv_svg.specs.Pixels.{IsFinite};
ghost use Rattle.pv_rule.specs.Systems.{files, AreOnlyRead, search_box};
ghost use Rattle.pv_product.specs.Views.{IsAxis, HasNoAxis, IsPlaneOf, HasNoPlane, IsSoundFor};
ghost use Rattle.pv_product.specs.Products.{ComesOfSvg, RefusesSvg};
ghost use Rattle.pv_view.specs.Scenes.{plane_of, IsScene, RefusesScene};
ghost use Rattle.pv_product.specs.Made.{made};

use pv_expr::System;
use pv_honest::learn_honest;
use pv_interval::Interval;
use pv_io::Folder;
use pv_num::Num;
use pv_opening::{Key, paving_in};
use pv_product::Product;
use pv_request::{Refusal, Settings, View};
use pv_rule::{settler_for, system_in};
use pv_slope::FormSettler;
use pv_svg::laws::pictures_are_sound;
use pv_svg::slice;
use pv_tree::NodeLimit;
use std::alloc::Global;

/// The numbers of the variables that are a picture's axes.
#[derive(Clone, Copy)]
pub(crate) struct Axes {
    pub x: u8,
    pub y: u8,
}

/// A system's settler, and the axes of a picture of its pavings.
#[derive(Drop)]
pub(crate) struct Scene {
    pub settler: FormSettler,
    pub axes: Axes,
}

/// The picture of the paving in a file, of the system in another.
pub fn svg<'a, F: Folder>(
    alloc: Global,
    folder: &mut F,
    system: &'a str,
    name: &'a str,
    settings: &Settings<'a>,
    limit: NodeLimit,
    view: &View<'a>,
) -> Result<Product, Refusal<'a>>
    ensures read { AreOnlyRead
        (files (F.content folder.old) (F.fetch_faults folder.old) (F.store_faults folder.old))
        (files (F.content folder.new) (F.fetch_faults folder.new) (F.store_faults folder.new)) }
    ensures comes { IfOk result
        (λ p. ComesOfSvg
        (files (F.content folder.old) (F.fetch_faults folder.old) (F.store_faults folder.old))
        system.now name.now settings.now limit view.now (made p)) }
    ensures refused { IfErr result
        (RefusesSvg (files (F.content folder.old) (F.fetch_faults folder.old)
        (F.store_faults folder.old))
        (files (F.content folder.new) (F.fetch_faults folder.new) (F.store_faults folder.new))
        system.now name.now settings.now limit view.now) }
{
    let scene = match scene_in(alloc, folder, system, settings, view) {
        Ok(scene) => scene,
        Err(refusal) => return Err(refusal),
    };
    let Scene { settler, axes } = scene;
    let key = Key::of(alloc, &settler, limit)?;
    let paving = match paving_in(alloc, folder, &key, name) {
        Ok(paving) => paving,
        Err(refusal) => return Err(refusal),
    };
    learn_honest(&paving, &settler);
    pictures_are_sound(&settler);
    let picture = slice(alloc, &paving, axes.x, axes.y, &view.at)?;
    Ok(Product::Picture(picture))
}

// The settler of the system in a file, and the axes of a view of its pavings.
fn scene_in<'a, F: Folder>(
    alloc: Global,
    folder: &mut F,
    name: &'a str,
    settings: &Settings<'a>,
    view: &View<'a>,
) -> Result<Scene, Refusal<'a>>
    ensures read { AreOnlyRead
        (files (F.content folder.old) (F.fetch_faults folder.old) (F.store_faults folder.old))
        (files (F.content folder.new) (F.fetch_faults folder.new) (F.store_faults folder.new)) }
    ensures scene { IfOk result
        (IsScene (files (F.content folder.old) (F.fetch_faults folder.old)
        (F.store_faults folder.old)) name.now settings.now view.now) }
    ensures refused { IfErr result
        (RefusesScene (files (F.content folder.old) (F.fetch_faults folder.old)
        (F.store_faults folder.old))
        (files (F.content folder.new) (F.fetch_faults folder.new) (F.store_faults folder.new))
        name.now settings.now view.now) }
{
    let system = match system_in(alloc, folder, name) {
        Ok(system) => system,
        Err(refusal) => return Err(refusal),
    };
    // They are judged after the contractor program, but the settler keeps the system.
    let axes = axes_in(&system, view);
    let settler = match settler_for(alloc, system, settings) {
        Ok(settler) => settler,
        Err(refusal) => return Err(refusal),
    };
    match axes {
        Some(axes) => Ok(Scene { settler, axes }),
        None => Err(Refusal::Usage),
    }
}

// The axes of a view of a system's pavings.
fn axes_in(system: &System, view: &View<'_>) -> Option<Axes>
    ensures { MatchOption result
        (HasNoPlane system.now view.now.x.now view.now.y.now view.now.at.items)
        (λ axes. IsPlaneOf system.now view.now.x.now view.now.y.now view.now.at.items
        (plane_of axes view.now.at.items)) }
{
    let x = axis_in(system, view.x)?;
    let y = axis_in(system, view.y)?;
    if x == y || view.at.len() + 2 != usize::from(system.variable_count()) {
        return None;
    }
    Some(Axes { x, y })
}

// The variable of a name, where it is bounded.
fn axis_in(system: &System, name: &str) -> Option<u8>
    ensures { MatchOption result (HasNoAxis system.now name.now) (IsAxis system.now name.now) }
{
    let i = system.find(name)?;
    if is_bounded(system.search_interval(i)) {
        Some(i)
    } else {
        None
    }
}

fn is_bounded(part: Interval) -> bool
    ensures bounded { IsTrue result → IsFinite part }
    ensures unbounded { result ≡ false → IsFinite part → ⊥ }
{
    part.lo() != Num::NEG_INF && part.hi() != Num::POS_INF
}
