//! Tags, each a key and a value.
ghost use Rattle.std.specs.Prelude.{◌≡◌, ◌≢◌, IfOk, IfErr, OnOk, Some};
ghost use Rattle.serde_json.specs.View.{view, members_view};
ghost use Rattle.pair_kinds.specs.NamesRealms.Pairs.{IsPairKey, IsPairValue, pair_fault};
ghost use Rattle.pair_kinds.specs.Tags.{key_name, value_name, put_filled, tag_data};

use serde_json::{Map, Value};
use std::alloc::{AllocError, Global};
use std::marker::Model;
use text_kinds::{
    Form, Listed, Name, NameFault, Pair, PairFault, ReadFault, Spelled, TagKey, TagValue, Written,
    object, or_empty_text, put,
};

/// A tag: a pair whose key and value are text of the grammar of pairs. Contracts see it as the
/// pair.
#[derive(Debug, Drop)]
pub struct Tag {
    key: TagKey,
    value: TagValue,
}

impl Model for Tag {
    ghost use Rattle.pair_kinds.specs.NamesRealms.declared.pairs.Pair.{Pair};

    ghost Value = { Pair };

    ghost view = { λ t. record { key = t.key; value = t.value } };
}

impl Tag {
    /// Reads a tag from its two texts. The key is judged first. `Memory` where there is none for
    /// the tag.
    pub fn parse(alloc: Global, key: &[u8], value: &[u8]) -> Result<Tag, PairFault>
        ensures ok { IfOk result (λ t. (t.key ≡ key.now) × (t.value ≡ value.now)) }
        ensures grammar { IfOk result (λ _. IsPairKey key.now × IsPairValue value.now) }
        ensures fault { IfErr result (λ f. f ≢ PairFault.Memory
            → pair_fault key.now value.now ≡ Some f) }
    {
        let key = match TagKey::parse_text(alloc, key) {
            Ok(key) => key,
            Err(NameFault::Memory) => return Err(PairFault::Memory),
            Err(fault) => return Err(PairFault::Key(fault)),
        };
        let value = match TagValue::parse_text(alloc, value) {
            Ok(value) => value,
            Err(NameFault::Memory) => return Err(PairFault::Memory),
            Err(fault) => return Err(PairFault::Value(fault)),
        };
        let (_key, _value) = (key.as_str(), value.as_str());
        Ok(Tag { key, value })
    }

    /// The key.
    pub fn key(&self) -> &str
        ensures text { result.now ≡ self.now.key }
        ensures grammar { IsPairKey self.now.key }
    {
        self.key.as_str()
    }

    /// The value.
    pub fn value(&self) -> &str
        ensures text { result.now ≡ self.now.value }
        ensures grammar { IsPairValue self.now.value }
    {
        self.value.as_str()
    }

    /// The pair that a row keeps. Takes no memory.
    pub fn into_pair(self) -> Pair
        ensures { result ≡ self }
    {
        let Tag { key, value } = self;
        Pair {
            key: key.into_bytes(),
            value: value.into_bytes(),
        }
    }
}

fn key_name() -> Name
    ensures { result ≡ key_name }
{
    Name::word("key")
}

fn value_name() -> Name
    ensures { result ≡ value_name }
{
    Name::word("value")
}

impl Form for Tag {
    ghost use Rattle.pair_kinds.specs.JsonFields.Kinds.{never_empty};
    ghost use Rattle.pair_kinds.specs.Tags.{a_tag, IsTag};

    ghost fault = { a_tag };

    ghost means = { IsTag };

    ghost empty = { never_empty };

    fn is_empty(_value: &Value) -> bool {
        false
    }

    #[tactic(auto, unfolding(crate::specs::Tags::a_tag))]
    fn read(alloc: Global, value: &Value) -> Result<Tag, ReadFault> {
        object(alloc, value)?;
        let key = or_empty_text(alloc, value, key_name())?;
        let text = or_empty_text(alloc, value, value_name())?;
        Ok(Tag { key, value: text })
    }
}

/// Puts a text under a name, where it isn't empty.
fn put_filled(
    alloc: Global,
    map: &mut Map<String, Value>,
    name: &Name,
    text: &str,
) -> Result<(), AllocError>
    ensures { OnOk result (members_view map.new.entries
        ≡ put_filled name.now text.now (members_view map.old.entries)) }
{
    if text.is_empty() {
        return Ok(());
    }
    put(alloc, map, name, Value::try_from_str(alloc, text)?)
}

/// The JSON object of a tag with this key and value.
pub fn tag_value(alloc: Global, key: &str, value: &str) -> Result<Value, AllocError>
    ensures { IfOk result (λ v. view v ≡ tag_data (record { key = key.now; value = value.now })) }
{
    let mut map = Map::new(alloc);
    put_filled(alloc, &mut map, &value_name(), value)?;
    let key = Value::try_from_str(alloc, key)?;
    put(alloc, &mut map, &key_name(), key)?;
    Ok(Value::Object(map))
}

impl Written for Tag {
    ghost use Rattle.std.specs.Prelude.{false};
    ghost use Rattle.pair_kinds.specs.Tags.{tag_data};

    ghost json = { tag_data };

    ghost blank = { λ _. false };

    fn write(&self, alloc: Global) -> Result<Value, AllocError> {
        tag_value(alloc, self.key(), self.value())
    }
}

/// The pairs that tags are, moved. `Err` where there is no memory for the list.
pub fn pairs_from(alloc: Global, tags: Listed<Tag>) -> Result<Listed<Pair>, AllocError>
    ensures { IfOk result (λ pairs. pairs ≡ tags) }
{
    let mut pairs = Vec::with_capacity(alloc, tags.len())?;
    for tag in tags.into_vec() {
        pairs.push(tag.into_pair())?;
    }
    Ok(Listed::new(pairs))
}
