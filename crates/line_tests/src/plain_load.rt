//! A load, step by step into a sorted map.
ghost use Rattle.std.specs.Prelude.{◌≡◌, IfOk, OnOk};
ghost use Rattle.entry_model.specs.Entries.{changed, entry_of, map_of};
ghost use Rattle.load_gen.specs.Generator.{first_steps};
ghost use Rattle.load_gen.specs.Summary.{summary_of};

use load_gen::{LoadGen, LoadStep, Summary};
use plain_map::PlainMap;
use std::alloc::{AllocError, Global};

/// The map that so many steps of a seed make of an empty one.
pub fn loaded(alloc: Global, seed: u64, count: u32) -> Result<PlainMap, AllocError>
    ensures { IfOk result (λ map. map ≡ map_of (first_steps seed count)) }
{
    let mut map = PlainMap::new(alloc);
    let mut generator = LoadGen::new(seed);
    for _ in 0..count {
        take_step(&mut map, generator.next())?;
    }
    Ok(map)
}

// What a step makes of a map.
fn take_step(map: &mut PlainMap, step: LoadStep) -> Result<(), AllocError>
    ensures { OnOk result (map.new ≡ changed map.old (entry_of step.key step.value)) }
{
    match step.value {
        Some(value) => map.put(&step.key, &value),
        None => {
            map.del(&step.key);
            Ok(())
        }
    }
}

/// The summary of a map: a loop over its pairs.
pub fn summed(map: &PlainMap) -> Summary
    ensures { result ≡ summary_of map.now }
{
    let mut summary = Summary::new();
    for pair in map.pairs() {
        summary.add(pair.value());
    }
    summary
}
