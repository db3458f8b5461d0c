// Examples for the rebuilders and the shield, as tables. The contracts are proved elsewhere; here they are run.
#![tactic(auto)]

ghost use Rattle.std.specs.Mem.{FitsInMemory};

#[cfg(test)]
mod tests {
    use interfaces::cell::{Cell, TRACE};
    use interfaces::rebuilder::Rebuilder;
    use interfaces::step::Plan;
    use interfaces::store::Store;
    use interfaces::value::{Printed, Value};
    use rebuilders::{ConstructiveTraces, DirtyBits, VerifyingTraces};
    use std::process::Abort;
    use std::slice;
    use std::test::Fail;
    use stores::TableStore;
    use stores::shield::Shield;
    use text::Text;
    use whole::{Whole, write_number};

    // The one cell that every run of the table asks for.
    const ASKED: usize = 3;

    // What a plan must say: to run, to keep the value of a number, or to ask next for the cell of a number.
    #[derive(Clone, Copy)]
    enum Says {
        Run,
        Keep(u32),
        Next(usize),
    }

    // What is done at a cell, and what the plan must then say at each of the three depths.
    #[derive(Clone, Copy)]
    enum Act {
        // a run: the answer that it got, and its result
        Record(usize, u32, u32),
        // the plan before any answer
        Begin(usize, [Says; 3]),
        // the plan after an answer
        Plan(usize, u32, [Says; 3]),
        Forget(usize),
        Wipe,
    }

    use Says::{Keep, Next, Run};

    const ACTS: [Act; 16] = [
        Act::Begin(7, [Run, Run, Run]),
        Act::Record(7, 5, 10),
        Act::Begin(7, [Run, Next(3), Next(3)]),
        Act::Plan(7, 5, [Run, Keep(10), Keep(10)]),
        Act::Plan(7, 6, [Run, Run, Run]),
        Act::Record(7, 6, 20),
        Act::Plan(7, 5, [Run, Run, Keep(10)]),
        Act::Plan(7, 6, [Run, Keep(20), Keep(20)]),
        Act::Record(255, 6, 30),
        Act::Forget(7),
        Act::Begin(7, [Run, Run, Run]),
        Act::Plan(7, 5, [Run, Run, Run]),
        Act::Plan(255, 6, [Run, Keep(30), Keep(30)]),
        Act::Wipe,
        Act::Plan(255, 6, [Run, Run, Run]),
        Act::Begin(0, [Run, Run, Run]),
    ];

    fn cell(number: usize) -> Result<Cell, Fail> {
        Ok(Cell::new(number).ok_or("no cell")?)
    }

    // The value of either kind that is written as this number.
    fn value<P: Printed>(number: u32) -> Result<P, Fail> {
        P::read(write_number(number).as_slice()).map_err(|_| Fail::new("no value"))
    }

    // Whether a plan says what is wanted.
    fn is_said<P: Printed>(plan: Plan<P>, wanted: Says) -> Result<bool, Fail> {
        match (plan, wanted) {
            (Plan::Run, Run) => Ok(true),
            (Plan::Keep(kept), Keep(number)) => Ok(kept.is_like(&value::<P>(number)?)),
            (Plan::Next(next), Next(number)) => Ok(next == cell(number)?),
            _ => Ok(false),
        }
    }

    // Does one act; `depth` is the place of the rebuilder among the three.
    fn perform<P: Printed, R: Rebuilder<P>>(
        rt: &impl Abort,
        rebuilder: &mut R,
        act: Act,
        depth: usize,
    ) -> Result<(), Fail>
        requires { FitsInMemory P.row }
    {
        assert!(rt; depth < 3);
        let asked = [cell(ASKED)?];
        match act {
            Act::Record(at, answer, result) => {
                let answer = value::<P>(answer)?;
                let result = value::<P>(result)?;
                assert!(rt;
                    rebuilder
                        .record(cell(at)?, &asked, slice::from_ref(&answer), result)
                        .is_ok()
                );
            }
            Act::Begin(at, wanted) => {
                assert!(rt; is_said(rebuilder.plan(cell(at)?, &[], &[]), wanted[depth])?);
            }
            Act::Plan(at, answer, wanted) => {
                let answer = value::<P>(answer)?;
                assert!(rt;
                    is_said(
                        rebuilder.plan(cell(at)?, &asked, slice::from_ref(&answer)),
                        wanted[depth]
                    )?
                );
            }
            Act::Forget(at) => rebuilder.forget(cell(at)?),
            Act::Wipe => rebuilder.wipe(),
        }
        Ok(())
    }

    // Does all acts; then more than eight pairs are refused, and lists of unequal length.
    // Nine answers come from the caller, who knows the type: an array of any type may be too large for a slice.
    fn perform_all<P: Printed, R: Rebuilder<P>>(
        rt: &impl Abort,
        rebuilder: &mut R,
        depth: usize,
        nine: &[P],
    ) -> Result<(), Fail>
        requires { FitsInMemory P.row }
    {
        for act in &ACTS {
            perform(rt, rebuilder, *act, depth)?;
        }
        let asked = [cell(ASKED)?; 9];
        let result = value::<P>(6)?;
        assert!(rt; rebuilder.record(cell(9)?, &asked, nine, result).is_err());
        assert!(rt; rebuilder.record(cell(9)?, &asked, &[], result).is_err());
        Ok(())
    }

    #[test]
    fn dirty_bits(rt: HostRuntime) -> Result<(), Fail> {
        let mut none: [Whole; 0] = [];
        let mut rebuilder = DirtyBits::new(&mut none);
        perform_all(&rt, &mut rebuilder, 0, &[value::<Whole>(5)?; 9])?;
        perform_all(&rt, &mut rebuilder, 0, &[value::<Text>(5)?; 9])
    }

    // The next four are not one function over the kind and the depth: tried, and it is then open that the rows of any
    // depth fit in memory, which the check finds alone for the depths 1 and 4.
    #[test]
    fn verifying(rt: HostRuntime) -> Result<(), Fail> {
        let mut numbers = [value::<Whole>(99)?; TRACE];
        let mut rebuilder: VerifyingTraces<Whole> = VerifyingTraces::new(&mut numbers);
        perform_all(&rt, &mut rebuilder, 1, &[value::<Whole>(5)?; 9])
    }

    #[test]
    fn verifying_texts(rt: HostRuntime) -> Result<(), Fail> {
        let mut texts = [value::<Text>(99)?; TRACE];
        let mut rebuilder: VerifyingTraces<Text> = VerifyingTraces::new(&mut texts);
        perform_all(&rt, &mut rebuilder, 1, &[value::<Text>(5)?; 9])
    }

    #[test]
    fn constructive(rt: HostRuntime) -> Result<(), Fail> {
        let mut numbers = [value::<Whole>(99)?; 9216];
        let mut rebuilder: ConstructiveTraces<Whole> = ConstructiveTraces::new(&mut numbers);
        perform_all(&rt, &mut rebuilder, 2, &[value::<Whole>(5)?; 9])
    }

    #[test]
    fn constructive_texts(rt: HostRuntime) -> Result<(), Fail> {
        let mut texts = [value::<Text>(99)?; 9216];
        let mut rebuilder: ConstructiveTraces<Text> = ConstructiveTraces::new(&mut texts);
        perform_all(&rt, &mut rebuilder, 2, &[value::<Text>(5)?; 9])
    }

    // Writes a number, and says whether it was taken; a shielded cell stays at 0.
    fn taken<S: Store<Whole>>(rt: &impl Abort, store: &mut S, number: usize) -> Result<bool, Fail> {
        let at = cell(number)?;
        let accepted = store.write(at, value::<Whole>(5)?).is_ok();
        assert!(rt; store.is_locked(at) != accepted);
        assert!(rt; (store.read(at).value() == 5) == accepted);
        Ok(accepted)
    }

    // Three shields over any store of which no cell is locked.
    fn pile<S: Store<Whole> + Drop>(rt: &impl Abort, store: S) -> Result<(), Fail> {
        let one = Shield::new(store, &[cell(1)?]);
        let two = Shield::new(one, &[cell(2)?, cell(255)?]);
        let mut three = Shield::new(two, &[]);
        assert!(rt; taken(rt, &mut three, 0)?);
        assert!(rt; !taken(rt, &mut three, 1)?);
        assert!(rt; !taken(rt, &mut three, 2)?);
        assert!(rt; !taken(rt, &mut three, 255)?);
        assert!(rt; taken(rt, &mut three, 254)?);
        Ok(())
    }

    #[test]
    fn three_shields(rt: HostRuntime) -> Result<(), Fail> {
        let mut memory = [value::<Whole>(0)?; 256];
        pile(&rt, TableStore::new(&mut memory))
    }
}
