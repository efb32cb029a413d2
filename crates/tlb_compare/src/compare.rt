// The same calls on a TLB and on a model of it.
ghost use Rattle.std.specs.Prelude.{MatchResult, IfOk};
ghost use Rattle.tlb_compare.specs.declared.calls.Call.TheVariants.{Probe};
ghost use Rattle.tlb_compare.specs.Agreement.{IsEntry, Made, Agreed, DiffersAt};
ghost use Rattle.tlb_compare.specs.declared.fault.Stop.TheVariants.{Faulty, Differs};

use crate::answers::Answers;
use crate::calls::Call;
use crate::fault::{Fault, Stop};
use crate::model::Model;
use crate::plain::{PlainEntry, PlainPair};
use crate::random::Random;
use tlb::{Entry, Tlb};
use words::{Page, Word};

pub const CALLS: u32 = 10_000;

// How many probes hit, where every answer is the model's; else the first call whose answer is not.
pub fn compare<T: Tlb + Drop, M: Model + Drop>(mut tlb: T, mut model: M) -> Result<u32, Stop>
    ensures { MatchResult result
        (λ hits. (u : T) × (v : M) × Agreed T.Tlb.meaning M.Model.has tlb model 10000 hits u v)
        (λ stop. elim stop [ Faulty call fault ↦ Unit {0} | Differs call ↦ DiffersAt T.Tlb.meaning M.Model.has tlb model call ]) }
{
    let mut random = Random::start();
    let mut hits = 0;
    for call in 0..CALLS {
        let answers = match make(&mut tlb, &mut model, Call::draw(&mut random)) {
            Ok(answers) => answers,
            Err(fault) => return Err(Stop::Faulty { call, fault }),
        };
        if answers.tlb != answers.model {
            return Err(Stop::Differs { call });
        }
        // a count that is the answer, not an index
        hits += u32::from(answers.tlb.is_some());
    }
    Ok(hits)
}

// Makes a call on both.
fn make<T: Tlb, M: Model>(tlb: &mut T, model: &mut M, call: Call) -> Result<Answers, Fault>
    ensures { IfOk result (λ answers. Made T.Tlb.meaning M.Model.has tlb.old model.old call answers tlb.new) }
{
    match call {
        Call::Probe(page) => probe(tlb, model, page),
        Call::Load(entry, page) => {
            tlb.load(Entry::try_from(entry)?, Page::try_from(page)?);
            model.load(entry, page)?;
            Ok(Answers::none())
        }
        Call::Purge(page) => {
            tlb.purge(Page::try_from(page)?);
            model.purge(page);
            Ok(Answers::none())
        }
        Call::Flush => {
            tlb.flush();
            model.flush();
            Ok(Answers::none())
        }
    }
}

// Probes both.
fn probe<T: Tlb, M: Model>(tlb: &mut T, model: &mut M, page: u64) -> Result<Answers, Fault>
    ensures { IfOk result (λ answers. Made T.Tlb.meaning M.Model.has tlb.old model.old (Probe page) answers tlb.new) }
{
    let answer = tlb.probe(Page::try_from(page)?);
    Ok(Answers {
        tlb: answer.map(|translation| PlainPair::new(page, translation)),
        model: model.probe(page)?,
    })
}

impl TryFrom<PlainEntry> for Entry {
    type Error = Fault;

    ghost try_from_gives = { λ entry r. IfOk r (λ e. IsEntry e entry) };

    fn try_from(entry: PlainEntry) -> Result<Entry, Fault> {
        let page = Page::try_from(entry.page)?;
        let word = Word::from_bits(entry.form, entry.word).ok_or(Fault::BadNumbers)?;
        Ok(Entry { page, word })
    }
}
