//! Names that are blocked.
ghost use Rattle.std.specs.Prelude.{◌≡◌, ◌∷◌, [], false, length, IfOk, IfSome, IfNone, IsOk, IsTrue, None, OnErr, OnOk, Some, ◌↔◌, option_copied, if◌then◌else◌};
ghost use Rattle.std.specs.List.{list_any};
ghost use Rattle.std.specs.List.Sorted.{IsPermutation};
ghost use Rattle.dnw_name.specs.DomainName.{DomainName, is_wildcard, lowercase_name};
ghost use Rattle.dnw_name.specs.NameText.{NameText};
ghost use Rattle.dnw_name.specs.dnw_codes.ProtoError.{IsMemory};
ghost use Rattle.zsv_blocked.specs.BlockedNames.{AddsIf, AddsListed, AddsName, AddsText, has_wildcard, is_listed};
ghost use Rattle.zsv_blocked.specs.ListText.{name_text_of_line};
ghost use Rattle.zst_key.specs.Ancestors.{star};

use crate::text::name_text_of_line;
use dnw_name::{Name, ProtoError};
use std::alloc::{AllocError, Global};
use std::collections::HashMap;
use std::marker::Model;
use zst_key::NameKey;

/// Names that are blocked, each once, up to case.
#[derive(Drop)]
pub struct BlockedNames {
    // Each name in lower case, under its key, so that a search makes none.
    names: HashMap<NameKey, Name>,
    // Whether a wildcard is among them: where none is, none is searched for.
    has_wildcards: bool,
}

impl Model for BlockedNames {
    ghost use Rattle.std.specs.Prelude.{◌≡◌, List};
    ghost use Rattle.std.specs.HashMap.{keys};
    ghost use Rattle.std.specs.List.{list_any};
    ghost use Rattle.dnw_name.specs.DomainName.{DomainName, is_wildcard};
    ghost use Rattle.zsv_blocked.specs.Entries.{AreLower};

    ghost Value = { List DomainName };

    ghost view = { λ set. keys set.names };

    ghost invariant = { λ set. AreLower set.names.entries × (set.has_wildcards ≡ list_any is_wildcard (keys set.names)) };
}

impl Clone for BlockedNames {
    ghost is_clone = { λ names copy. copy ≡ names };

    fn clone(&self) -> Result<BlockedNames, AllocError> {
        let names = self.names.clone()?;
        Ok(BlockedNames {
            names,
            has_wildcards: self.has_wildcards,
        })
    }
}

impl BlockedNames {
    /// No names.
    pub fn new(alloc: Global) -> BlockedNames
        ensures { result ≡ [] }
    {
        BlockedNames {
            names: HashMap::new(alloc),
            has_wildcards: false,
        }
    }

    /// How many names there are.
    pub fn len(&self) -> usize
        ensures { result ≡ length self.now }
    {
        self.names.len()
    }

    /// The name among them that has this key, in lower case. It takes no memory.
    pub fn listed(&self, key: &NameKey) -> Option<&Name>
        ensures { (name : DomainName) → key.now ≡ lowercase_name name
            → option_copied result ≡ (if is_listed self.now name then Some (lowercase_name name) else None) }
    {
        self.names.get(key)
    }

    // Whether the name of a key is among them.
    fn holds(&self, key: &NameKey) -> bool
        ensures { result ≡ is_listed self.now key.now }
    {
        self.names.contains_key(key)
    }

    /// Whether a wildcard over at least so many of a name's labels is among them; the name has this key. Where no wildcard
    /// is among them, nothing is searched for, and no memory is taken.
    pub fn has_wildcard(&self, name: &Name, key: &NameKey, depth: u8) -> Result<bool, AllocError>
        requires { key.now ≡ lowercase_name name.now }
        ensures found { IfOk result (λ found. found ≡ has_wildcard self.now depth name.now) }
        ensures none { list_any is_wildcard self.now ≡ false → IsOk result }
    {
        if !self.has_wildcards {
            return Ok(false);
        }
        self.finds_wildcard(name, key, depth)
    }

    // Whether one of the wildcards over at least so many of a name's labels is found; the name has this key.
    fn finds_wildcard(&self, name: &Name, key: &NameKey, depth: u8) -> Result<bool, AllocError>
        requires { key.now ≡ lowercase_name name.now }
        ensures { IfOk result (λ found. found ≡ has_wildcard self.now depth name.now) }
    {
        let mut above = key.clone()?;
        let mut count = name.iter().len();
        'levels: while count > usize::from(depth) {
            above.to_parent();
            count -= 1;
            if self.has_star(&above)? {
                return Ok(true);
            }
        }
        Ok(false)
    }

    // Whether the wildcard below a name is among them.
    fn has_star(&self, name: &NameKey) -> Result<bool, AllocError>
        ensures { IfOk result (λ found. found ≡ is_listed self.now (star name.now)) }
    {
        let mut star = name.clone()?;
        star.to_star()?;
        Ok(self.holds(&star))
    }

    /// Adds the names that the text of a list has on its lines, each fully qualified. A line whose text is no name adds
    /// none. It is refused only for memory, and then nothing has changed.
    pub fn add(&mut self, alloc: Global, text: &str) -> Result<(), AllocError>
        ensures ok { OnOk result (AddsListed self.old text.now self.new) }
        ensures err { OnErr result (self.new ≡ self.old) }
    {
        let mut names = self.clone()?;
        names.add_lines(alloc, text)?;
        *self = names;
        Ok(())
    }

    // Adds the names on the lines of a text.
    fn add_lines(&mut self, alloc: Global, text: &str) -> Result<(), AllocError>
        ensures { OnOk result (AddsListed self.old text.now self.new) }
    {
        for line in text.lines() {
            self.add_line(alloc, line)?;
        }
        Ok(())
    }

    // Adds the name on a line, if it has one.
    fn add_line(&mut self, alloc: Global, line: &str) -> Result<(), AllocError>
        ensures { OnOk result (AddsIf self.old (name_text_of_line line.now) self.new) }
    {
        match name_text_of_line(line) {
            Some(text) => self.add_text(alloc, text),
            None => Ok(()),
        }
    }

    // Adds the name of a text, if it is one's.
    fn add_text(&mut self, alloc: Global, text: &str) -> Result<(), AllocError>
        ensures { OnOk result (AddsText self.old text.now self.new) }
    {
        match name_of(alloc, text)? {
            Some(name) => self.add_name(alloc, name),
            None => Ok(()),
        }
    }

    // Adds a name, fully qualified.
    fn add_name(&mut self, alloc: Global, mut name: Name) -> Result<(), AllocError>
        ensures { OnOk result (AddsName self.old name self.new) }
    {
        name.set_fqdn(true);
        let lower = name.to_lowercase()?;
        let key = NameKey::of(alloc, &name)?;
        if self.holds(&key) {
            return Ok(());
        }
        self.put(key, lower)
    }

    // Adds a name in lower case, which isn't there, under its key.
    fn put(&mut self, key: NameKey, name: Name) -> Result<(), AllocError>
        requires lower { name ≡ lowercase_name key }
        requires new { is_listed self.old key ≡ false }
        ensures { OnOk result (IsPermutation (key ∷ self.old) self.new) }
    {
        let is_wildcard = name.is_wildcard();
        self.names.insert(key, name)?;
        self.has_wildcards |= is_wildcard;
        Ok(())
    }
}

// The name of a text, if it is one's.
fn name_of(alloc: Global, text: &str) -> Result<Option<Name>, AllocError>
    ensures some { IfOk result (λ found. IfSome found (λ name. NameText text.now name)) }
    ensures none { IfOk result (λ found. IfNone found ((name : DomainName) → NameText text.now name → ⊥)) }
{
    match Name::from_str(alloc, text) {
        Ok(name) => Ok(Some(name)),
        Err(refused) => {
            if is_memory(&refused) {
                return Err(AllocError);
            }
            Ok(None)
        }
    }
}

// Whether it is for want of memory that there is no name.
fn is_memory(refused: &ProtoError) -> bool
    ensures { IsTrue result ↔ IsMemory refused.now }
{
    matches!(refused, ProtoError::Memory(_))
}
