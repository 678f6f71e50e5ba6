//! The lines of a key file, one after the other: of the pairs that its holder has.

ghost use Rattle.std.specs.Prelude.{◌≡◌, ◌≤◌, ◌<◌, ◌++◌, List, [], ◌∷◌, IfOk, filter};
ghost use Rattle.ids.specs.Sizes.{replicas, client_party};
ghost use Rattle.key_file.specs.KeyFile.{pairs_with, pairs_of};
ghost use Rattle.key_file.specs.Holders.{has_pair};
ghost use Rattle.key_file.specs.Reading.{Reads, HasNo};
ghost use Rattle.key_file.specs.declared.pair_key.PairKey.{PairKey};

use crate::holder::Holder;
use crate::key_file::KeyFileFault;
use crate::line::take_line;
use crate::pair_key::PairKey;
use ids::{ClientId, Config, PartyId, ReplicaId};

/// Reads the line of a pair, where the holder has it. What stands behind it.
fn read_pair<'a>(
    text: &'a [u8],
    holder: &Holder,
    one: PartyId,
    other: PartyId,
    keys: &mut Vec<PairKey>,
) -> Result<&'a [u8], KeyFileFault>
    ensures read { IfOk result (λ rest. (read : List PairKey) × (keys.new.items ≡ keys.old.items ++ read)
        × Reads (filter (has_pair holder.now) ((one, other) ∷ [])) text.now read rest.now) }
    ensures bad { result ≡ Err KeyFileFault.NotOne
        → HasNo (filter (has_pair holder.now) ((one, other) ∷ [])) text.now }
{
    if !holder.has_pair(one, other) {
        return Ok(text);
    }
    let Some(line) = take_line(text, one, other) else {
        return Err(KeyFileFault::NotOne);
    };
    let key = line.0;
    keys.push(PairKey { one, other, key })?;
    Ok(line.1)
}

/// Reads the lines of a party with so many parties from one on. What stands behind them.
fn read_with<'a>(
    text: &'a [u8],
    holder: &Holder,
    one: PartyId,
    first: PartyId,
    count: u8,
    keys: &mut Vec<PairKey>,
) -> Result<&'a [u8], KeyFileFault>
    requires { first ≤ client_party 0 }
    ensures read { IfOk result (λ rest. (read : List PairKey) × (keys.new.items ≡ keys.old.items ++ read)
        × Reads (filter (has_pair holder.now) (pairs_with one first count)) text.now read rest.now) }
    ensures bad { result ≡ Err KeyFileFault.NotOne
        → HasNo (filter (has_pair holder.now) (pairs_with one first count)) text.now }
{
    let mut rest = text;
    for i in 0..u16::from(count) {
        match read_pair(rest, holder, one, PartyId(first.0 + i), keys) {
            Ok(behind) => rest = behind,
            Err(fault) => return Err(fault),
        }
    }
    Ok(rest)
}

/// Reads the lines of a replica. What stands behind them.
pub(crate) fn read_row<'a>(
    text: &'a [u8],
    holder: &Holder,
    config: Config,
    one: ReplicaId,
    keys: &mut Vec<PairKey>,
) -> Result<&'a [u8], KeyFileFault>
    requires { one < replicas config }
    ensures read { IfOk result (λ rest. (read : List PairKey) × (keys.new.items ≡ keys.old.items ++ read)
        × Reads (filter (has_pair holder.now) (pairs_of config one)) text.now read rest.now) }
    ensures bad { result ≡ Err KeyFileFault.NotOne
        → HasNo (filter (has_pair holder.now) (pairs_of config one)) text.now }
{
    let party = one.into();
    let (replicas, clients) = (config.n() - one.0, config.clients());
    match read_with(text, holder, party, party, replicas, keys) {
        Ok(rest) => read_with(rest, holder, party, ClientId(0).into(), clients, keys),
        Err(fault) => Err(fault),
    }
}
