//! Keys that share more bytes than one byte says.
use block_format::{Block, BlockBuilder};
use byte_fields::fnv1a;
use entry_list::{Entry, lookup};
use plain_blocks::{are_entries, block_bytes};
use std::alloc::{AllocError, Global};
use std::test::Fail;

// Twenty keys, each of which is the one before with a byte more: the second shares 301 bytes.
fn entries(alloc: Global) -> Result<Vec<Entry>, AllocError> {
    let mut key = vec![in alloc; b'k'; 300]?;
    let mut list = Vec::new(alloc);
    for last in 0..20u8 {
        key.push(last).map_err(AllocError::from)?;
        list.push(Entry::new(alloc, &key, Some(&[last]))?)
            .map_err(AllocError::from)?;
    }
    Ok(list)
}

// Adds an entry whose key and value keep the limits.
fn add(builder: &mut BlockBuilder, entry: &Entry) -> Result<bool, Fail> {
    let key = entry.key();
    let value = entry.value();
    if key.is_empty() || key.len() > 1_024 || value.is_some_and(|value| value.len() > 1_048_576) {
        return Err(Fail::from("out of the limits"));
    }
    Ok(builder.add(key, value)?)
}

// Their block, as it is written.
fn built(alloc: Global, list: &[Entry]) -> Result<Vec<u8>, Fail> {
    let mut builder = BlockBuilder::new(alloc);
    let mut out = Vec::new(alloc);
    for entry in list {
        add(&mut builder, entry)?;
    }
    if !builder.is_empty() {
        builder.close(&mut out)?;
    }
    Ok(out)
}

// Whether a key is found, and a walk from it on comes by it and by the later ones.
fn is_found(bytes: &[u8], list: &[Entry], at: usize) -> bool {
    let Some(sought) = list.get(at) else {
        return false;
    };
    let Ok(block) = Block::read(bytes) else {
        return false;
    };
    let mut cursor = block.from(Some(sought.key()));
    for entry in list.iter().skip(at) {
        if !cursor.advance() || cursor.entry() != Some((entry.key(), entry.value())) {
            return false;
        }
    }
    let said = lookup(list, sought.key());
    !cursor.advance()
        && block.find(sought.key()) == said
        && Block::read_sum_and_find(bytes, sought.key()) == (fnv1a(bytes), Ok(said))
}

// The rule that the bytes break first, and where, with another byte at a place.
fn fault_with(bytes: &mut [u8], place: usize, other: u8) -> Option<(usize, u8)> {
    let kept = *bytes.get(place)?;
    *bytes.get_mut(place)? = other;
    let fault = Block::read(bytes).err();
    *bytes.get_mut(place)? = kept;
    fault.map(|fault| (fault.place, fault.rule))
}

// The second entry begins at 323, and says at 324 that it shares 301 bytes, 2D 01. With 45 of them its key would be less
// than the one before, and 557 the key before does not have.
#[test]
fn keys_share_301_bytes_and_more(rt: HostRuntime) -> Result<(), Fail> {
    let list = entries(rt.alloc())?;
    assert!(rt; are_entries(&list));
    let mut bytes = built(rt.alloc(), &list)?;
    assert_eq!(rt;
        bytes.as_slice(),
        block_bytes(rt.alloc(), &list)?.as_slice()
    );
    for at in 0..20 {
        assert!(rt; is_found(&bytes, &list, at));
    }
    assert_eq!(rt; bytes.get(323..328), Some([1, 0x2D, 1, 1, 0].as_slice()));
    assert_eq!(rt; fault_with(&mut bytes, 325, 0), Some((323, 6)));
    assert_eq!(rt; fault_with(&mut bytes, 325, 2), Some((323, 10)));
    Ok(())
}
