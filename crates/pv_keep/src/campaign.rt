//! Campaigns.
ghost use Rattle.std.specs.Prelude.{◌≡◌, ◌≢◌, ◌+◌, ◌≤◌, ℕ, List, Some, Err, IsSome, IfOk, OnOk, OnErr, IsErrOf};
ghost use Rattle.pv_io.specs.Outside.{Rose};
ghost use Rattle.pv_tree.specs.Trees.{Tree, opens};
ghost use Rattle.pv_tree.specs.Stages.{Grows, Rule, IsStage};
ghost use Rattle.pv_file.specs.Readings.{settled_count};
ghost use Rattle.pv_join.specs.Joins.{IsJoin};
ghost use Rattle.pv_keep.specs.Holdings.{seen_of};
ghost use Rattle.pv_keep.specs.Keeping.{HasOther};
ghost use Rattle.pv_keep.specs.Campaigns.{IsOpened, IsLeft, HasTooMany, HasBadRow, KeepsTree, IsSaved, AreStages, HasGrown};
ghost use Rattle.pv_tree.specs.declared.limit.TheConstants.{LEAST_LIMIT};

use crate::frontier::Frontier;
use crate::keeper::Keeper;
use crate::new_rows::new_rows;
use crate::rebuild::rebuild;
use crate::refusal::CampaignRefused;
use crate::row::Rows;
use pv_box::IBox;
use pv_io::IoRefused;
use pv_join::{JoinRefused, join};
use pv_tree::{NodeLimit, Paving};
use std::alloc::Global;
use std::marker::Model;

/// A paving that is kept between rounds under a name, and how many settled nodes it may have.
#[derive(Drop)]
pub struct Campaign {
    paving: Paving,
    limit: NodeLimit,
}

impl Model for Campaign {
    ghost use Rattle.std.specs.Prelude.{◌≤◌};
    ghost use Rattle.pv_file.specs.Readings.{settled_count};
    ghost use Rattle.pv_keep.specs.Holdings.{Holding, holding_of, coded_holding};

    ghost Value = { Holding };

    ghost coded = { coded_holding };

    ghost view = { λ c. holding_of c.paving c.limit };

    ghost invariant = { λ c. settled_count c.paving.tree ≤ c.limit };
}

impl Campaign {
    /// Opens what is kept of a name with at most 100,000 settled nodes, as `open_within` does.
    pub fn open<P: Keeper>(
        alloc: Global,
        keeper: &mut P,
        name: &str,
        identity: [u8; 32],
        root: IBox,
    ) -> Result<Campaign, CampaignRefused>
        ensures root { IfOk result (λ c. c.root ≡ root) }
        ensures limit { IfOk result (λ c. c.limit ≡ LEAST_LIMIT) }
        ensures few { IfOk result (λ c. settled_count c.tree ≤ LEAST_LIMIT) }
        ensures opened { IfOk result (λ c.
            IsOpened LEAST_LIMIT (P.kept keeper.old name.now) (P.kept keeper.new name.now)
            identity root c.tree) }
        ensures begun { OnOk result (P.begun keeper.new ≡ Some name.now) }
        ensures keeps { IfOk result (λ c. KeepsTree (P.kept keeper.new name.now) c.tree) }
        ensures other_identity { (found : List ℕ) → result ≡ Err (CampaignRefused.OtherIdentity found)
            → HasOther (P.kept keeper.old name.now) identity found }
        ensures too_many { IsErrOf result CampaignRefused.TooMany
            → HasTooMany LEAST_LIMIT (P.kept keeper.old name.now) identity }
        ensures bad_row { (n : ℕ) → result ≡ Err (CampaignRefused.BadRow n)
            → HasBadRow LEAST_LIMIT (P.kept keeper.old name.now) identity root n }
        ensures left { OnErr result
            (IsLeft (P.kept keeper.old name.now) (P.kept keeper.new name.now) identity) }
        ensures others { (other : List ℕ)
            → other ≢ name.now → P.kept keeper.new other ≡ P.kept keeper.old other }
        ensures cause { IsErrOf result CampaignRefused.Failed
            → Rose (P.faults keeper.old) (P.faults keeper.new) }
        ensures counts_on { P.faults keeper.old ≤ P.faults keeper.new }
    {
        let limit = NodeLimit::by_default();
        Campaign::open_within(alloc, keeper, name, identity, root, limit)
    }

    /// Begins a name and opens what is kept of it: the paving over a root box whose settled nodes
    /// the rows are, no more than the limit. An absent name is there from then on, with this
    /// identity and no rows, also after some refusals; all else that is kept stays.
    pub fn open_within<P: Keeper>(
        alloc: Global,
        keeper: &mut P,
        name: &str,
        identity: [u8; 32],
        root: IBox,
        limit: NodeLimit,
    ) -> Result<Campaign, CampaignRefused>
        ensures root { IfOk result (λ c. c.root ≡ root) }
        ensures limit { IfOk result (λ c. c.limit ≡ limit) }
        ensures few { IfOk result (λ c. settled_count c.tree ≤ limit) }
        ensures opened { IfOk result (λ c.
            IsOpened limit (P.kept keeper.old name.now) (P.kept keeper.new name.now)
            identity root c.tree) }
        ensures begun { OnOk result (P.begun keeper.new ≡ Some name.now) }
        ensures keeps { IfOk result (λ c. KeepsTree (P.kept keeper.new name.now) c.tree) }
        ensures other_identity { (found : List ℕ) → result ≡ Err (CampaignRefused.OtherIdentity found)
            → HasOther (P.kept keeper.old name.now) identity found }
        ensures too_many { IsErrOf result CampaignRefused.TooMany
            → HasTooMany limit (P.kept keeper.old name.now) identity }
        ensures bad_row { (n : ℕ) → result ≡ Err (CampaignRefused.BadRow n)
            → HasBadRow limit (P.kept keeper.old name.now) identity root n }
        ensures left { OnErr result
            (IsLeft (P.kept keeper.old name.now) (P.kept keeper.new name.now) identity) }
        ensures others { (other : List ℕ)
            → other ≢ name.now → P.kept keeper.new other ≡ P.kept keeper.old other }
        ensures cause { IsErrOf result CampaignRefused.Failed
            → Rose (P.faults keeper.old) (P.faults keeper.new) }
        ensures counts_on { P.faults keeper.old ≤ P.faults keeper.new }
    {
        keeper.begin(name, identity)?;
        let mut rows = Rows::new(alloc);
        keeper.load(limit.nodes(), &mut rows)?;
        let paving = match rebuild(alloc, &rows, root) {
            Ok(paving) => paving,
            Err(refused) => return Err(refused),
        };
        Ok(Campaign { paving, limit })
    }

    /// The paving.
    pub fn paving(&self) -> &Paving
        ensures is { result.now ≡ seen_of self.now }
        ensures few { settled_count result.now.tree ≤ self.now.limit }
    {
        &self.paving
    }

    /// Joins a stage to the paving and keeps the rows of the nodes that are settled in it and were
    /// open, and answers their number. After a refusal the campaign and the kept rows are as
    /// before.
    pub fn save_round<P: Keeper>(
        &mut self,
        alloc: Global,
        keeper: &mut P,
        stage: &Paving,
    ) -> Result<u64, IoRefused>
        requires root { stage.now.root ≡ self.old.root }
        requires stages { AreStages self.old.root self.old.tree stage.now.tree }
        requires few { (t : Tree) → IsJoin self.old.tree stage.now.tree t →
            settled_count t ≤ self.old.limit }
        requires begun { IsSome (P.begun keeper.old) }
        requires kept { (name : List ℕ) → P.begun keeper.old ≡ Some name
            → KeepsTree (P.kept keeper.old name) self.old.tree }
        ensures root { self.new.root ≡ self.old.root }
        ensures limit { self.new.limit ≡ self.old.limit }
        ensures joined { OnOk result (IsJoin self.old.tree stage.now.tree self.new.tree) }
        ensures count { IfOk result (λ n. settled_count self.new.tree ≡
            settled_count self.old.tree + n) }
        ensures unchanged { OnErr result (self.new ≡ self.old) }
        ensures stage { (rule : Rule) (depth : ℕ) (opening : Tree)
            → IsStage rule depth self.old.root opening self.old.tree
            → IsStage rule depth self.old.root opening stage.now.tree
            → IsStage rule depth self.old.root opening self.new.tree }
        ensures saved { (name : List ℕ) → P.begun keeper.old ≡ Some name
            → OnOk result (IsSaved (P.kept keeper.old name) (P.kept keeper.new name) self.new.tree) }
        ensures kept { (name : List ℕ) → P.begun keeper.old ≡ Some name
            → KeepsTree (P.kept keeper.new name) self.new.tree }
        ensures kept_on { (name : List ℕ) → P.begun keeper.old ≡ Some name
            → OnErr result (P.kept keeper.new name ≡ P.kept keeper.old name) }
        ensures others { (name other : List ℕ) → P.begun keeper.old ≡ Some name
            → other ≢ name → P.kept keeper.new other ≡ P.kept keeper.old other }
        ensures begun { P.begun keeper.new ≡ P.begun keeper.old }
        ensures cause { IsErrOf result IoRefused.Failed
            → Rose (P.faults keeper.old) (P.faults keeper.new) }
        ensures counts_on { P.faults keeper.old ≤ P.faults keeper.new }
    {
        let joined = match self.join_with(alloc, stage) {
            Ok(joined) => joined,
            Err(refused) => return Err(refused),
        };
        let frontier = Frontier::of(alloc, &self.paving)?;
        let count = match keep_new(alloc, keeper, &frontier, &joined) {
            Ok(count) => count,
            Err(refused) => return Err(refused),
        };
        self.paving = joined;
        Ok(count)
    }

    /// The paving, which may grow then. The campaign ends: `save_from` goes on with what it grew to.
    pub fn into_paving(self) -> Paving
        ensures is { result ≡ seen_of self }
    {
        self.paving
    }

    /// The campaign of a paving that grew from the tree whose rows are kept. It keeps the rows of the
    /// nodes that are settled in it and were open, which stand at and below the leaves that were open.
    /// It takes time for these nodes and leaves, and none for what was settled. After a refusal the
    /// kept rows are as before.
    pub fn save_from<P: Keeper>(
        alloc: Global,
        keeper: &mut P,
        frontier: &Frontier,
        grown: Paving,
        limit: NodeLimit,
    ) -> Result<Campaign, IoRefused>
        requires few { settled_count grown.tree ≤ limit }
        requires begun { IsSome (P.begun keeper.old) }
        requires grown { HasGrown (P.begun keeper.old) (P.kept keeper.old) frontier.now grown.tree }
        ensures root { IfOk result (λ c. c.root ≡ grown.root) }
        ensures limit { IfOk result (λ c. c.limit ≡ limit) }
        ensures taken { IfOk result (λ c. c.tree ≡ grown.tree) }
        ensures joined { (earlier : Tree) → Grows earlier grown.tree
            → IfOk result (λ c. IsJoin earlier grown.tree c.tree) }
        ensures saved { (name : List ℕ) → P.begun keeper.old ≡ Some name
            → OnOk result (IsSaved (P.kept keeper.old name) (P.kept keeper.new name) grown.tree) }
        ensures kept { (name : List ℕ) → P.begun keeper.old ≡ Some name
            → OnOk result (KeepsTree (P.kept keeper.new name) grown.tree) }
        ensures kept_on { (name : List ℕ) → P.begun keeper.old ≡ Some name
            → OnErr result (P.kept keeper.new name ≡ P.kept keeper.old name) }
        ensures others { (name other : List ℕ) → P.begun keeper.old ≡ Some name
            → other ≢ name → P.kept keeper.new other ≡ P.kept keeper.old other }
        ensures begun { P.begun keeper.new ≡ P.begun keeper.old }
        ensures cause { IsErrOf result IoRefused.Failed
            → Rose (P.faults keeper.old) (P.faults keeper.new) }
        ensures counts_on { P.faults keeper.old ≤ P.faults keeper.new }
    {
        match keep_new(alloc, keeper, frontier, &grown) {
            Ok(_) => {}
            Err(refused) => return Err(refused),
        }
        Ok(Campaign {
            paving: grown,
            limit,
        })
    }

    #[tactic(auto, using(crate::proofs::Opening::joined_grows))]
    fn join_with(&self, alloc: Global, stage: &Paving) -> Result<Paving, IoRefused>
        requires root { stage.now.root ≡ self.now.root }
        requires stages { AreStages self.now.root self.now.tree stage.now.tree }
        ensures root { IfOk result (λ p. p.root ≡ self.now.root) }
        ensures joined { IfOk result (λ p. IsJoin self.now.tree stage.now.tree p.tree) }
        ensures grows { IfOk result (λ p. Grows self.now.tree p.tree) }
        ensures stage { (rule : Rule) (depth : ℕ) (opening : Tree)
            → IsStage rule depth self.now.root opening self.now.tree
            → IsStage rule depth self.now.root opening stage.now.tree
            → IfOk result (λ p. IsStage rule depth self.now.root opening p.tree) }
        ensures not_failed { result ≢ Err IoRefused.Failed }
    {
        match join(alloc, &self.paving, stage) {
            Ok(joined) => Ok(joined),
            Err(JoinRefused::Memory) => Err(IoRefused::Memory),
            Err(JoinRefused::Disagree { .. }) => unreachable!(),
        }
    }
}

// Keeps the rows of the nodes of a paving that stand at and below leaves that were open when its
// earlier stage was kept, and answers their number.
fn keep_new<P: Keeper>(
    alloc: Global,
    keeper: &mut P,
    frontier: &Frontier,
    later: &Paving,
) -> Result<u64, IoRefused>
    requires begun { IsSome (P.begun keeper.old) }
    requires grown { HasGrown (P.begun keeper.old) (P.kept keeper.old) frontier.now later.now.tree }
    ensures count { IfOk result (λ n. (earlier : Tree) → frontier.now ≡ opens earlier
        → Grows earlier later.now.tree
        → settled_count later.now.tree ≡ settled_count earlier + n) }
    ensures saved { (name : List ℕ) → P.begun keeper.old ≡ Some name
        → OnOk result (IsSaved (P.kept keeper.old name) (P.kept keeper.new name) later.now.tree) }
    ensures kept { (name : List ℕ) → P.begun keeper.old ≡ Some name
        → OnOk result (KeepsTree (P.kept keeper.new name) later.now.tree) }
    ensures unchanged { (name : List ℕ) → P.begun keeper.old ≡ Some name
        → OnErr result (P.kept keeper.new name ≡ P.kept keeper.old name) }
    ensures others { (name other : List ℕ) → P.begun keeper.old ≡ Some name
        → other ≢ name → P.kept keeper.new other ≡ P.kept keeper.old other }
    ensures begun { P.begun keeper.new ≡ P.begun keeper.old }
    ensures cause { IsErrOf result IoRefused.Failed
        → Rose (P.faults keeper.old) (P.faults keeper.new) }
    ensures counts_on { P.faults keeper.old ≤ P.faults keeper.new }
{
    let rows = new_rows(alloc, frontier, later)?;
    match keeper.save(&rows) {
        Ok(()) => {}
        Err(refused) => return Err(refused),
    }
    Ok(rows.len())
}
