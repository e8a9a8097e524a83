//! Variants of tests.
ghost use Rattle.std.specs.Prelude.{◌≡◌, true, ◌++◌, [], ◌∷◌, None, Some, IfOk, IfErr, OnOk, IsPermutation};
ghost use Rattle.std.specs.Prelude.{unwrap_or};
ghost use Rattle.std.specs.Str.{IsUtf8};
ghost use Rattle.serde_json.specs.Data.{object, string, put as with_member};
ghost use Rattle.serde_json.specs.View.{view, members_view};
ghost use Rattle.serde_json.specs.Find.{as_str};
ghost use Rattle.json_fields.specs.NamesRealms.Pairs.{pair_fault};
ghost use Rattle.json_fields.specs.NamesRealms.Variants.{IsAscending};
ghost use Rattle.json_fields.specs.Faults.{Says};
ghost use Rattle.json_fields.specs.Texts.{refused};
ghost use Rattle.json_fields.specs.Fields.{optional, set_at};
ghost use Rattle.field_kinds.specs.Variants.{def_name, all_texts, pairs_of, pairs_at, pairs_fault, members_fault, told};
ghost use Rattle.field_kinds.specs.Variants.{a_def, IsPairOfGrammar, AreOfGrammar, def_members, variant_data};

use crate::defaults::Defaulted;
use json_fields::{
    FaultKind, Form, Name, NameFault, Pair, PairFault, ReadFault, Variant, Why, Written, object,
    optional,
};
use serde_json::{Map, Value};
use std::alloc::{AllocError, Global};
use std::marker::Model;
use std::str::from_utf8;

fn refused(alloc: Global, fault: NameFault) -> ReadFault
    ensures { Says result (refused (Some fault)) }
{
    match Why::of(fault) {
        Some(why) => ReadFault::here(alloc, FaultKind::BadValue(why)),
        None => ReadFault::Memory,
    }
}

/// What is told of a pair.
fn told(alloc: Global, fault: PairFault) -> ReadFault
    ensures { Says result (told (Some fault)) }
{
    match fault {
        PairFault::Key(fault) => refused(alloc, fault),
        PairFault::Value(fault) => refused(alloc, fault),
        PairFault::Memory => ReadFault::Memory,
    }
}

fn all_texts(map: &Map<String, Value>) -> bool
    ensures { result ≡ all_texts (members_view map.now.entries) }
{
    for (_key, value) in map {
        if !value.is_string() {
            return false;
        }
    }
    true
}

/// The text of a value, where it is one.
fn text_of(value: &Value) -> &str
    ensures { result.now ≡ unwrap_or (as_str (view value.now)) [] }
{
    match value {
        Value::String(text) => text.as_str(),
        _ => "",
    }
}

/// Reads one pair.
fn read_pair(alloc: Global, key: &str, value: &str) -> Result<Pair, ReadFault>
    ensures ok { IfOk result (λ p. (p.key ≡ key.now) × (p.value ≡ value.now)
        × (pair_fault key.now value.now ≡ None)) }
    ensures grammar { IfOk result (λ p. IsPairOfGrammar p) }
    ensures err { IfErr result (λ e. Says e (told (pair_fault key.now value.now))) }
{
    match Pair::read(alloc, key.as_bytes(), value.as_bytes()) {
        Ok(pair) => Ok(pair),
        Err(fault) => Err(told(alloc, fault)),
    }
}

/// Appends the pair of a name and a value.
#[tactic(auto, using(crate::proofs::VariantLaws::grammar_more))]
fn add_pair(alloc: Global, pairs: &mut Vec<Pair>, key: &str, value: &Value) -> Result<(), ReadFault>
    ensures ok { OnOk result ((pairs.new.items ≡ pairs.old.items
        ++ record { key = key.now; value = unwrap_or (as_str (view value.now)) [] } ∷ [])
        × (pair_fault key.now (unwrap_or (as_str (view value.now)) []) ≡ None)) }
    ensures grammar { OnOk result (AreOfGrammar pairs.old.items → AreOfGrammar pairs.new.items) }
    ensures err { IfErr result (λ e.
        Says e (told (pair_fault key.now (unwrap_or (as_str (view value.now)) [])))) }
{
    let pair = read_pair(alloc, key, text_of(value))?;
    match pairs.push(pair) {
        Ok(()) => Ok(()),
        Err(_) => Err(ReadFault::Memory),
    }
}

/// The pairs of an object, or the fault of the first that has one.
#[tactic(auto, using(crate::proofs::VariantLaws::of_nil))]
fn read_pairs(alloc: Global, map: &Map<String, Value>) -> Result<Vec<Pair>, ReadFault>
    ensures ok { IfOk result (λ ps. (ps.items ≡ pairs_of (members_view map.now.entries))
        × (pairs_fault (pairs_of (members_view map.now.entries)) ≡ None)) }
    ensures ascending { IfOk result (λ _. IsAscending (pairs_of (members_view map.now.entries))) }
    ensures grammar { IfOk result (λ ps. AreOfGrammar ps.items) }
    ensures err { IfErr result (λ e.
        Says e (pairs_fault (pairs_of (members_view map.now.entries)))) }
{
    let mut pairs = Vec::with_capacity(alloc, map.len())?;
    for (key, value) in map {
        add_pair(alloc, &mut pairs, key.as_str(), value)?;
    }
    Ok(pairs)
}

/// The pairs of an object of texts, in the order of their keys.
#[derive(Debug, Drop)]
struct Pairs {
    pairs: Vec<Pair>,
}

impl Model for Pairs {
    ghost use Rattle.std.specs.Prelude.{List};
    ghost use Rattle.json_fields.specs.NamesRealms.declared.pairs.Pair.{Pair};
    ghost use Rattle.json_fields.specs.NamesRealms.Variants.{IsAscending};
    ghost use Rattle.field_kinds.specs.Variants.{AreOfGrammar};

    ghost Value = { List Pair };

    ghost view = { λ p. p.pairs.items };

    ghost invariant = { λ p. IsAscending p.pairs.items × AreOfGrammar p.pairs.items };
}

impl Pairs {
    fn into_vec(self) -> Vec<Pair>
        ensures pairs { result.items ≡ self }
        ensures ascending { IsAscending self }
        ensures grammar { AreOfGrammar self }
    {
        self.pairs
    }
}

impl Form for Pairs {
    ghost use Rattle.json_fields.specs.Kinds.{never_empty};
    ghost use Rattle.field_kinds.specs.Variants.{a_def, pairs_in};

    ghost fault = { a_def };

    ghost means = { λ d x. x ≡ pairs_in d };

    ghost empty = { never_empty };

    fn is_empty(_value: &Value) -> bool {
        false
    }

    fn read(alloc: Global, value: &Value) -> Result<Pairs, ReadFault> {
        match value {
            Value::Object(map) => {
                if all_texts(map) {
                    let pairs = read_pairs(alloc, map)?;
                    Ok(Pairs { pairs })
                } else {
                    Err(ReadFault::here(alloc, FaultKind::WrongKind))
                }
            }
            _ => Err(ReadFault::here(alloc, FaultKind::WrongKind)),
        }
    }
}

/// A variant as `{"def":{key:value}}`, whose pairs are of the grammar of pairs. Contracts see it as
/// the pairs.
#[derive(Debug, Drop)]
pub struct VariantMap {
    variant: Variant,
}

impl Model for VariantMap {
    ghost use Rattle.std.specs.Prelude.{List};
    ghost use Rattle.json_fields.specs.NamesRealms.declared.pairs.Pair.{Pair};
    ghost use Rattle.field_kinds.specs.Variants.{AreOfGrammar};

    ghost Value = { List Pair };

    ghost view = { λ m. m.variant };

    ghost invariant = { λ m. AreOfGrammar m.variant };
}

impl VariantMap {
    /// The pairs, in the order of their keys.
    pub fn as_slice(&self) -> &[Pair]
        ensures pairs { result.now ≡ self.now }
        ensures ascending { IsAscending self.now }
        ensures grammar { AreOfGrammar self.now }
    {
        self.variant.as_slice()
    }

    /// The variant, without taking memory.
    pub fn into_variant(self) -> Variant
        ensures pairs { result ≡ self }
        ensures grammar { AreOfGrammar self }
    {
        self.variant
    }
}

/// The pairs at `def`, none where it is unset.
#[tactic(auto, using(crate::proofs::VariantLaws::of_nil))]
fn pairs_at(alloc: Global, value: &Value) -> Result<Vec<Pair>, ReadFault>
    ensures ok { IfOk result (λ ps. (optional def_name a_def (view value.now) ≡ None)
        × (ps.items ≡ pairs_at (set_at def_name (view value.now))) × IsAscending ps.items) }
    ensures grammar { IfOk result (λ ps. AreOfGrammar ps.items) }
    ensures err { IfErr result (λ e. Says e (optional def_name a_def (view value.now))) }
{
    match optional::<Pairs>(alloc, value, Name::word("def")) {
        Ok(Some(found)) => Ok(found.into_vec()),
        Ok(None) => Ok(Vec::new(alloc)),
        Err(fault) => Err(fault),
    }
}

fn only_memory(fault: NameFault) -> ReadFault
    requires { fault ≡ NameFault.Memory }
    ensures { result ≡ ReadFault.Memory }
{
    match fault {
        NameFault::Memory => ReadFault::Memory,
        _ => unreachable!(),
    }
}

/// The variant of pairs, which have no key twice.
#[tactic(auto, using(crate::proofs::VariantLaws::grammar_permutation))]
fn variant_of(alloc: Global, pairs: Vec<Pair>) -> Result<Variant, ReadFault>
    requires ascending { IsAscending pairs.items }
    requires grammar { AreOfGrammar pairs.items }
    ensures ok { IfOk result (λ v. IsPermutation pairs.items v × IsAscending v) }
    ensures grammar { IfOk result (λ v. AreOfGrammar v) }
    ensures memory { IfErr result (λ e. e ≡ ReadFault.Memory) }
{
    match Variant::from_pairs(alloc, pairs) {
        Ok(variant) => Ok(variant),
        Err(fault) => Err(only_memory(fault)),
    }
}

impl Form for VariantMap {
    ghost use Rattle.json_fields.specs.Kinds.{never_empty};
    ghost use Rattle.field_kinds.specs.Variants.{a_variant, IsVariant};

    ghost fault = { a_variant };

    ghost means = { IsVariant };

    ghost empty = { never_empty };

    fn is_empty(_value: &Value) -> bool {
        false
    }

    fn read(alloc: Global, value: &Value) -> Result<VariantMap, ReadFault> {
        object(alloc, value)?;
        let pairs = pairs_at(alloc, value)?;
        let variant = variant_of(alloc, pairs)?;
        Ok(VariantMap { variant })
    }
}

/// The text of bytes that are UTF-8.
fn utf8_text(bytes: &[u8]) -> &str
    requires { IsUtf8 bytes.now }
    ensures { result.now ≡ bytes.now }
{
    match from_utf8(bytes) {
        Ok(text) => text,
        Err(_) => unreachable!(),
    }
}

/// Puts the value of a pair under its key.
#[tactic(auto, using(crate::proofs::VariantLaws::key_text))]
fn put_pair(alloc: Global, map: &mut Map<String, Value>, pair: &Pair) -> Result<(), AllocError>
    requires { IsPairOfGrammar pair.now }
    ensures { OnOk result (members_view map.new.entries
        ≡ with_member pair.now.key (string pair.now.value) (members_view map.old.entries)) }
{
    let key = utf8_text(pair.key.as_slice());
    let text = utf8_text(pair.value.as_slice());
    let value = Value::try_from_str(alloc, text)?;
    serde_json::put(map, alloc, key, value)
}

/// The object of pairs.
fn def_value(alloc: Global, pairs: &[Pair]) -> Result<Value, AllocError>
    requires ascending { IsAscending pairs.now }
    requires grammar { AreOfGrammar pairs.now }
    ensures { IfOk result (λ v. view v ≡ object (def_members pairs.now)) }
{
    let mut map = Map::new(alloc);
    for pair in pairs {
        put_pair(alloc, &mut map, pair)?;
    }
    Ok(Value::Object(map))
}

/// The object of a variant.
#[tactic(auto, using(crate::proofs::VariantLaws::data_nil, crate::proofs::VariantLaws::data_some))]
fn variant_value(alloc: Global, pairs: &[Pair]) -> Result<Value, AllocError>
    requires ascending { IsAscending pairs.now }
    requires grammar { AreOfGrammar pairs.now }
    ensures { IfOk result (λ v. view v ≡ variant_data pairs.now) }
{
    let mut map = Map::new(alloc);
    if pairs.is_empty() {
        return Ok(Value::Object(map));
    }
    let def = def_value(alloc, pairs)?;
    serde_json::put(&mut map, alloc, "def", def)?;
    Ok(Value::Object(map))
}

impl Written for VariantMap {
    ghost use Rattle.std.specs.Prelude.{false};
    ghost use Rattle.field_kinds.specs.Variants.{variant_data};

    ghost json = { variant_data };

    ghost blank = { λ _. false };

    #[tactic(auto, using(crate::proofs::VariantLaws::variant_written))]
    fn write(&self, alloc: Global) -> Result<Value, AllocError> {
        variant_value(alloc, self.as_slice())
    }
}

/// The default of a variant is the empty one.
impl Defaulted for VariantMap {
    ghost use Rattle.std.specs.Prelude.{[]};

    ghost unset = { [] };

    #[tactic(auto, using(crate::proofs::VariantLaws::of_nil, crate::proofs::DefaultLaws::of_none))]
    fn default_value(alloc: Global) -> Result<VariantMap, AllocError> {
        match variant_of(alloc, Vec::new(alloc)) {
            Ok(variant) => Ok(VariantMap { variant }),
            Err(_) => Err(AllocError),
        }
    }

    #[tactic(auto, using(crate::proofs::DefaultLaws::list_bare))]
    fn is_default(&self) -> bool {
        self.as_slice().is_empty()
    }
}
