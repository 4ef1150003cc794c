//! A set of an answer.

ghost use Rattle.std.specs.Prelude.{◌≡◌, Some, IfOk, map, option_copied};
ghost use Rattle.zst_record.specs.Lending.{seen};
ghost use Rattle.zst_record.specs.RecordSets.{flattened_set, renamed};
ghost use Rattle.zst_handler.specs.Answers.{first_of, is_set_lent, owner_name, set_in, shown, shown_as, under};

use crate::lookup_options::LookupOptions;
use std::alloc::{AllocError, Global};
use zst_record::{Name, Record, RecordRef, RecordSet, RrsetRecords};

/// A set of an answer. The zone lends it, whatever name its records are shown under.
#[derive(Drop)]
pub struct AnswerSet<'z> {
    set: &'z RecordSet,
    owner: Owner<'z>,
    /// Whether they are addresses behind an alias, and for how long they may be kept at most.
    behind: Option<u32>,
}

/// The name under which the records of a set are shown.
#[derive(Drop)]
enum Owner<'z> {
    /// Their own.
    Own,
    /// One that is lent, as the records are.
    Lent(&'z Name),
    /// One that was made for the answer. It is boxed, so that an answer is small to move.
    Made(Box<Name>),
}

impl Owner<'_> {
    // The name, if it isn't the records' own.
    #[inline(always)]
    fn name(&self) -> Option<&Name>
        ensures { option_copied result ≡ owner_name self.now }
    {
        match self {
            Owner::Own => None,
            Owner::Lent(name) => Some(name),
            Owner::Made(name) => Some(name),
        }
    }
}

/// How the records of a set are shown.
#[derive(Clone, Copy)]
pub(crate) enum Guise<'r> {
    /// As they are.
    Own,
    /// Under another name.
    Renamed(&'r Name),
    /// Under another name, for no longer than a time to live.
    Flattened(&'r Name, u32),
}

impl<'z> AnswerSet<'z> {
    /// A set of the zone, as it is there.
    pub fn own(set: &'z RecordSet) -> AnswerSet<'z>
        ensures { set_in result ≡ set.now }
    {
        AnswerSet {
            set,
            owner: Owner::Own,
            behind: None,
        }
    }

    /// The same records and signatures under another name, which is lent too.
    pub fn lent(set: &'z RecordSet, owner: &'z Name) -> AnswerSet<'z>
        ensures { set_in result ≡ renamed owner.now set.now }
    {
        AnswerSet {
            set,
            owner: Owner::Lent(owner),
            behind: None,
        }
    }

    /// The same records and signatures under another name, as a wildcard answers (RFC 4592 section 3.3.1).
    pub fn renamed(
        alloc: Global,
        set: &'z RecordSet,
        owner: Name,
    ) -> Result<AnswerSet<'z>, AllocError>
        ensures { IfOk result (λ answer. set_in answer ≡ renamed owner set.now) }
    {
        AnswerSet::under(alloc, set, owner, None)
    }

    /// The same records under another name, for no longer than a time to live, and without signatures, as an alias for
    /// addresses answers.
    pub fn flattened(
        alloc: Global,
        set: &'z RecordSet,
        owner: Name,
        ttl: u32,
    ) -> Result<AnswerSet<'z>, AllocError>
        ensures { IfOk result (λ answer. set_in answer ≡ flattened_set owner ttl set.now) }
    {
        AnswerSet::under(alloc, set, owner, Some(ttl))
    }

    // The set under another name, behind an alias or not.
    fn under(
        alloc: Global,
        set: &'z RecordSet,
        owner: Name,
        behind: Option<u32>,
    ) -> Result<AnswerSet<'z>, AllocError>
        ensures { IfOk result (λ answer. set_in answer ≡ under set.now (Some owner) behind) }
    {
        match Box::new(alloc, owner) {
            Ok(owner) => Ok(AnswerSet {
                set,
                owner: Owner::Made(owner),
                behind,
            }),
            Err(_) => Err(AllocError),
        }
    }

    // Whether nothing was made for it, so that it takes no memory.
    pub(crate) fn is_lent(&self) -> bool
        ensures { result ≡ is_set_lent self.now }
    {
        !matches!(self.owner, Owner::Made(_))
    }

    // The first record, under its own name.
    pub(crate) fn first(&self) -> Option<&Record>
        ensures { option_copied result ≡ first_of self.now.set.now.records }
    {
        self.set.as_slice().first()
    }

    // The records that are asked for, and how they are shown.
    #[inline(always)]
    pub(crate) fn shown(&self, options: LookupOptions) -> (RrsetRecords<'_>, Guise<'_>)
        ensures { map (shown_as result.1) result.0 ≡ shown options.dnssec_ok (set_in self.now) }
    {
        match (self.owner.name(), self.behind) {
            (None, _) => (options.rrset_with_rrigs(self.set), Guise::Own),
            (Some(owner), None) => (options.rrset_with_rrigs(self.set), Guise::Renamed(owner)),
            (Some(owner), Some(ttl)) => (
                self.set.records_without_rrsigs(),
                Guise::Flattened(owner, ttl),
            ),
        }
    }
}

// A record, as it is shown.
pub(crate) fn dress<'r>(guise: Guise<'r>, own: &'r Record) -> RecordRef<'r>
    ensures { seen result ≡ shown_as guise.entry own.now }
{
    match guise {
        Guise::Own => own.lend(),
        Guise::Renamed(name) => RecordRef {
            name,
            dns_class: own.dns_class,
            ttl: own.ttl,
            rdata: &own.rdata,
        },
        Guise::Flattened(name, ttl) => RecordRef {
            name,
            dns_class: own.dns_class,
            ttl: own.ttl.min(ttl),
            rdata: &own.rdata,
        },
    }
}
