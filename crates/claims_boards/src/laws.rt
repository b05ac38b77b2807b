//! What holds after every list of events, of a board in hand.
ghost use Rattle.std.specs.Prelude.{◌≡◌, ◌+◌, ◌≤◌, IsTrue, List};
ghost use Rattle.pv_tree.specs.Stages.{full_of};
ghost use Rattle.pv_board.specs.Marks.{weigh};
ghost use Rattle.pv_board.specs.Rules.{settled_in};
ghost use Rattle.pv_board.specs.Core.{Core, IsCore};
ghost use Rattle.pv_board.specs.Events.{IsOver};
ghost use Rattle.pv_events.specs.Steps.{Event, Run, settles, absorbs, halts};
ghost use Rattle.pv_events.specs.Runs.{IsBegun};

use pv_board::{Board, Naming};
use pv_events::laws::{runs, whole_runs};

/// How many nodes were settled by tickets since the board was opened.
pub fn settled_by_tickets<N: Naming>(board: &Board<N>) -> u64
    ensures { (events : List Event) (begun : Core) →
        IsBegun N.root N.opening N.budget N.limit begun →
        Run N.rule N.depth N.root N.opening N.limit events begun board.now →
        result ≡ weigh settles events }
{
    runs();
    board.used()
}

/// How many nodes more are settled than before, by tickets and by what was absorbed.
pub fn settled_since<N: Naming>(board: &Board<N>, before: u64) -> u64
    requires { before ≤ settled_in board.now.tree }
    ensures { (events : List Event) (old : Core) →
        IsCore N.rule N.depth N.root N.opening N.budget N.limit old →
        settled_in old.tree ≡ before →
        Run N.rule N.depth N.root N.opening N.limit events old board.now →
        result ≡ weigh settles events + weigh absorbs events }
{
    runs();
    let _used = board.used();
    board.counts().settled() - before
}

/// Whether what is left says that the paving of a board that is over is the full tree.
pub fn is_whole<N: Naming>(board: &Board<N>) -> bool
    requires { IsOver board.now }
    ensures { (events : List Event) (begun : Core) →
        IsBegun N.root N.opening N.budget N.limit begun →
        Run N.rule N.depth N.root N.opening N.limit events begun board.now →
        weigh halts events ≡ 0 →
        IsTrue result → board.now.tree ≡ full_of N.rule N.depth N.root N.opening 0 }
{
    whole_runs();
    let _used = board.used();
    0 < board.left()
}
