//! What no clause says: that memory is found.

use pv_expr::Expr;
use pv_num::Memory;
use std::alloc::Global;

fn copied(alloc: Global) -> Result<Expr, Memory> {
    let e = Expr::Pow(Box::new(alloc, Expr::Var(3))?, 2);
    e.clone_of(alloc)
}

#[test]
fn an_expression_is_copied(rt: HostRuntime) {
    assert!(rt; matches!(copied(rt.alloc()), Ok(Expr::Pow(_, 2))));
}
