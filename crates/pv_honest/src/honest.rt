//! What is said of the stages of the open search box.
ghost use Rattle.std.specs.Prelude.{◌≡◌, length};
ghost use Rattle.pv_expr.specs.Systems.{Parts};
ghost use Rattle.pv_tree.specs.Trees.{leaf, IsPaving};
ghost use Rattle.pv_tree.specs.Stages.{IsStage};
ghost use Rattle.pv_slope.specs.Methods.{method_of, dims_of, settle_by};
ghost use Rattle.pv_rule.specs.Systems.{IsRuleFor, search_box};
ghost use Rattle.pv_product.specs.Products.{IsHonest};
ghost use Rattle.pv_request.specs.declared.request.Settings.{Settings};

use pv_slope::FormSettler;
use pv_tree::Paving;

/// Does nothing. Where a paving of the search box is a stage of the open one, it covers the box, it
/// is sound, and without an open leaf it is the full tree.
pub fn learn_honest(paving: &Paving, settler: &FormSettler)
    requires root { paving.now.root ≡ search_box (method_of settler.now) }
    requires dims { length paving.now.root ≡ dims_of (method_of settler.now) }
    ensures paving { IsPaving paving.now.root paving.now.tree }
    ensures honest { (system : Parts) (s : Settings) → IsRuleFor system s (method_of settler.now)
        → IsStage (settle_by (method_of settler.now)) (method_of settler.now).parts.depth
        (search_box (method_of settler.now)) leaf paving.now.tree
        → IsHonest s (method_of settler.now) paving.now.tree }
{
    let _places = paving.dims();
    paving.learn_stages(settler);
}
