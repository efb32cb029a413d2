// What the TLBs mean, by their own names: each function only carries its fact. The last two put the levels' own names in their place.
ghost use Rattle.tlb.specs.Meaning.{SameMeaning};
ghost use Rattle.tlb.specs.OnePage.{one_page};
ghost use Rattle.tlb.specs.Partial.{partial_subblock};
ghost use Rattle.tlb.specs.TwoLevel.{two_level};

use crate::slot_tlb::{OnePageTlb, PartialSubblockTlb};
use crate::tlb::Tlb;
use crate::two_level::TwoLevelTlb;

#[tactic(auto, using(crate::proofs::Loads::same_one_page))]
pub fn one_page_means()
    ensures { SameMeaning ⟦<OnePageTlb as Tlb>⟧.meaning one_page }
{}

#[tactic(auto, using(crate::proofs::Loads::same_partial))]
pub fn partial_subblock_means()
    ensures { SameMeaning ⟦<PartialSubblockTlb as Tlb>⟧.meaning partial_subblock }
{}

// For any two TLBs.
pub fn two_level_means<A: Tlb, B: Tlb>()
    ensures { SameMeaning ⟦<TwoLevelTlb<A, B> as Tlb>⟧.meaning (two_level A.Tlb.meaning B.Tlb.meaning) }
{}

#[tactic(auto, using(crate::proofs::Levels::same_levels, crate::proofs::Loads::same_one_page, crate::proofs::Loads::same_partial))]
pub fn one_page_first_means()
    ensures { SameMeaning
        ⟦<TwoLevelTlb<OnePageTlb, PartialSubblockTlb> as Tlb>⟧.meaning
        (two_level one_page partial_subblock) }
{}

#[tactic(auto, using(crate::proofs::Levels::same_levels, crate::proofs::Loads::same_one_page, crate::proofs::Loads::same_partial))]
pub fn partial_subblock_first_means()
    ensures { SameMeaning
        ⟦<TwoLevelTlb<PartialSubblockTlb, OnePageTlb> as Tlb>⟧.meaning
        (two_level partial_subblock one_page) }
{}
