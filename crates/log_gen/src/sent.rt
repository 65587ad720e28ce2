//! What was sent.
ghost use Rattle.std.specs.Prelude.{◌≡◌, ◌≤◌, ◌<◌, ◌+◌, ◌*◌, ◌∷◌, [], IfOk, map};
ghost use Rattle.std.specs.List.{range_with_len};
ghost use Rattle.log_gen.specs.Rows.{transfer};
ghost use Rattle.log_gen.specs.Rules.{payload_of, sent_by};

use crate::payload::payload_of;
use crate::transfers::transfers_each;
use can_id::{Key, Kind};
use cy_bits::{Bytes, List, NoMemory};
use frag::{Sent, Transfer};
use std::alloc::Global;

/// What a source sent, by its number from 0 to 3: messages on subject 100, of the node with the next number.
pub fn sent_by(alloc: Global, number: u32, source: u8) -> Result<Sent, NoMemory>
    requires { source < 4 }
    ensures { IfOk result (λ sent. sent ≡ sent_by number source) }
{
    Ok(Sent {
        key: Key {
            kind: Kind::Message,
            port: 100,
            source: Some(source + 1),
        },
        sizes: List::new(vec![in alloc; 8, 8, 8]?),
        transfers: transfers_of(alloc, number, source, transfers_each())?,
    })
}

/// The first transfers of a source.
fn transfers_of(
    alloc: Global,
    number: u32,
    source: u8,
    count: u64,
) -> Result<List<Transfer>, NoMemory>
    requires source { source < 4 }
    requires few { count ≤ 5000 }
    ensures { IfOk result (λ list. list
        ≡ map (λ k. transfer (payload_of number) (4 * k + source)) (range_with_len 0 count)) }
{
    let mut list = List::empty(alloc);
    for place in 0..count {
        list.push(transfer_at(alloc, number, 4 * place + source as u64)?)?;
    }
    Ok(list)
}

/// A transfer, by its number among all.
fn transfer_at(alloc: Global, number: u32, index: u64) -> Result<Transfer, NoMemory>
    requires { index < 20000 }
    ensures { IfOk result (λ sent. sent ≡ transfer (payload_of number) index) }
{
    let payload = payload_of(number, index);
    Ok(Transfer {
        priority: 4,
        tid: (index / 4 % 32) as u8,
        moment: 1000 * index,
        destination: None,
        payload: Bytes::from_slice(alloc, payload.as_slice())?,
    })
}
