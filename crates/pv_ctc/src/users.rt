// Which constraints have a variable.

ghost use Rattle.std.specs.Prelude.{◌≡◌, ℕ, ◌<◌, ◌≤◌, ◌||◌, ◌&&◌, false, length, nat_eq, slice_index_or};
ghost use Rattle.pv_hc4.specs.MarkSets.{is_marked};
ghost use Rattle.pv_ctc.specs.Users.{AreTurned, has_user};
ghost use Rattle.pv_expr.specs.declared.system.TheConstants.{MOST_CONSTRAINTS};

use pv_box::MOST_PLACES;
use pv_hc4::Marks;

// For each variable the constraints that have it.
pub fn users_of(uses: &[[bool; MOST_PLACES]]) -> [Marks; MOST_PLACES]
    requires { length uses.now ≤ MOST_CONSTRAINTS }
    ensures { AreTurned result uses.now }
{
    let mut users = [Marks::none(); MOST_PLACES];
    for i in 0..uses.len() {
        add_user(&mut users, i as u8, &uses[i]);
    }
    users
}

// Adds a constraint to the users of each of its variables.
fn add_user(users: &mut [Marks; MOST_PLACES], number: u8, uses: &[bool; MOST_PLACES])
    requires { number < MOST_CONSTRAINTS }
    ensures { (v k : ℕ) → v < MOST_PLACES → has_user users.new v k ≡
        ((nat_eq number k && slice_index_or uses.now v false) || has_user users.old v k) }
{
    for v in 0..MOST_PLACES {
        if uses[v] {
            users[v] = users[v].with(number);
        }
    }
}
