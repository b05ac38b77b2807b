//! What centered forms say of points, as a contract.
ghost use Rattle.pv_slope.specs.Centered.{CenteredEncloses};

/// The centered form by rational slopes (Krawczyk and Neumaier, 1985) encloses its expression: at
/// each rational point of a box where the expression is defined, its value lies in the centered
/// form on the box, which is then not empty. It holds by its contract alone; the call does nothing.
pub fn enclosure()
    ensures { CenteredEncloses }
{}
