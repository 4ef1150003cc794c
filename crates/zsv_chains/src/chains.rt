//! Chains of handlers, each registered under a name.

ghost use Rattle.std.specs.Prelude.{◌≡◌, [], Some, IfOk, OnErr, OnOk, length, map, option_map};
ghost use Rattle.zst_key.specs.Ancestors.{nearest_in};
ghost use Rattle.zst_key.specs.dnw_name.DomainName.{lowercase_name};
ghost use Rattle.zst_request.specs.Requested.{asked_of};
ghost use Rattle.zsv_chains.specs.Chains.{HasHandler, IsSelfOrAncestor, UpdatesChain, UpdatesFirst, answer_of, chain_at, chain_for, entry_for, views_of, with_chain, without_chain};

use std::alloc::{AllocError, Global};
use std::mem;
use zst_key::{KeyRef, NameKey, NameList, WholeKey};
use zst_request::{LowerName, Name, ResponseCode, TSigResponseContext, ZoneHandler, ZoneRequest};

/// Chains of handlers, each registered under a name, up to case.
#[derive(Drop)]
pub struct Chains<H> {
    pub(crate) chains: NameList<Vec<H>>,
}

impl<H: Drop> Chains<H> {
    /// No chains.
    pub fn new(alloc: Global) -> Chains<H>
        ensures { result.chains ≡ [] }
    {
        Chains {
            chains: NameList::new(alloc),
        }
    }

    /// The chain for a name: that under the name, or else under the nearest name above it. It takes no memory.
    pub fn find(&self, alloc: Global, name: &Name) -> Option<&[H]>
        ensures { option_map (λ chain. chain.now) result
            ≡ option_map (λ chain. chain.items) (chain_for self.now.chains name.now) }
    {
        let key = WholeKey::of(alloc, name);
        self.find_at(key.borrow())
    }

    /// The chain for the name of a key, as `find` gives it.
    pub fn find_at(&self, key: KeyRef<'_>) -> Option<&[H]>
        ensures { option_map (λ chain. chain.now) result
            ≡ option_map (λ chain. chain.items) (option_map (λ entry. entry.1) (nearest_in (chain_at self.now.chains) key.entry)) }
    {
        match self.chains.nearest(key) {
            Some(entry) => Some(&entry.1),
            None => None,
        }
    }

    /// The registered name of the chain for a name: the name itself, or its nearest ancestor with a chain; as a key, and as a
    /// name in lower case.
    pub fn registered(
        &self,
        alloc: Global,
        name: &Name,
    ) -> Result<Option<(NameKey, LowerName)>, AllocError>
        ensures key { IfOk result (λ found. option_map (λ at. at.0) found ≡ option_map (λ entry. entry.0) (entry_for self.now.chains name.now)) }
        ensures name { IfOk result (λ found. option_map (λ at. at.1) found ≡ option_map (λ entry. entry.0) (entry_for self.now.chains name.now)) }
    {
        let key = NameKey::of(alloc, name)?;
        let Some((registered, _)) = self.chains.nearest(key.borrow()) else {
            return Ok(None);
        };
        let (key, labels) = go_up(key, name.iter().len(), registered);
        let registered_name = name.trim_to(labels)?;
        Ok(Some((key, LowerName::from(registered_name))))
    }

    /// Puts a chain in place of the one under a name, which is dropped.
    pub fn upsert(&mut self, alloc: Global, name: &Name, handlers: Vec<H>) -> Result<(), AllocError>
        ensures ok { OnOk result (self.new.chains ≡ with_chain self.old.chains name.now handlers) }
        ensures err { OnErr result (self.new.chains ≡ self.old.chains) }
    {
        let key = NameKey::of(alloc, name)?;
        self.chains.insert(key, handlers)
    }

    /// Takes out the chain under a name, and returns it. It takes no memory.
    pub fn remove(&mut self, alloc: Global, name: &Name) -> Option<Vec<H>>
        ensures value { result ≡ chain_at self.old.chains (lowercase_name name.now) }
        ensures after { self.new.chains ≡ without_chain self.old.chains name.now }
    {
        let key = WholeKey::of(alloc, name);
        self.chains.remove(&key.borrow())
    }
}

impl<H: ZoneHandler> Chains<H> {
    /// Updates the zone of the first handler of the chain under a key, and returns its answer; `None` where there is no
    /// chain, or an empty one. No other handler changes. Only that handler takes memory. The moment is given in seconds since
    /// 1970.
    pub fn update_first(
        &mut self,
        alloc: Global,
        key: KeyRef<'_>,
        request: ZoneRequest<'_>,
        now: u64,
    ) -> Result<Option<(Result<bool, ResponseCode>, Option<TSigResponseContext>)>, AllocError>
        ensures told { IfOk result (λ given. UpdatesChain (views_of H.view self.old.chains) key.entry (asked_of request.entry) now
            (option_map answer_of given) (views_of H.view self.new.chains)) }
        ensures err { OnErr result (views_of H.view self.new.chains ≡ views_of H.view self.old.chains) }
        ensures memory { OnErr result (HasHandler (chain_at self.old.chains key.entry)) }
    {
        let Some(mut handlers) = self.chains.replace(&key, Vec::new(alloc)) else {
            mem::drop(request);
            return Ok(None);
        };
        let told = first_updates(&mut handlers, alloc, request, now);
        mem::drop(self.chains.replace(&key, handlers));
        told
    }
}

// Goes up from a name with this many labels to the name itself or an ancestor of it, and counts the labels of that one.
fn go_up(key: NameKey, labels: usize, ancestor: &NameKey) -> (NameKey, usize)
    requires ancestor { IsSelfOrAncestor key ancestor.now }
    requires labels { labels ≡ length key.labels }
    ensures key { result.0 ≡ ancestor.now }
    ensures labels { result.1 ≡ length ancestor.now.labels }
{
    let mut key = key;
    let mut labels = labels;
    'levels: while key != *ancestor {
        key.to_parent();
        labels -= 1;
    }
    (key, labels)
}

// Updates the zone of the first of these handlers, if there is one, and returns its answer.
fn first_updates<H: ZoneHandler>(
    handlers: &mut Vec<H>,
    alloc: Global,
    request: ZoneRequest<'_>,
    now: u64,
) -> Result<Option<(Result<bool, ResponseCode>, Option<TSigResponseContext>)>, AllocError>
    ensures told { IfOk result (λ given. UpdatesFirst (map H.view handlers.old.items) (asked_of request.entry) now
        (option_map answer_of given) (map H.view handlers.new.items)) }
    ensures err { OnErr result (map H.view handlers.new.items ≡ map H.view handlers.old.items) }
    ensures memory { OnErr result (HasHandler (Some handlers.old)) }
{
    match handlers.first_mut() {
        Some(first) => {
            let answer = first.update(alloc, request, now)?;
            Ok(Some(answer))
        }
        None => {
            mem::drop(request);
            Ok(None)
        }
    }
}
