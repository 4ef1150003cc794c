//! The records that a lookup found.

ghost use Rattle.std.specs.Prelude.{◌≡◌};
ghost use Rattle.std.specs.Iterator.{YieldsFirstBy, item_count};
ghost use Rattle.zst_record.specs.Lending.{seen};
ghost use Rattle.zst_handler.specs.Answers.{all_shown, first_type, is_lent, none_in, records_in, set_in, shown};

use crate::answer_set::{AnswerSet, Guise, dress};
use crate::lookup_options::LookupOptions;
use std::marker::Model;
use zst_record::{Record, RecordRef, RecordType, RrsetRecords};

/// The records that a lookup found, set by set.
#[derive(Drop)]
pub enum LookupRecords<'z> {
    /// None.
    Empty,
    /// Those of one set.
    Records(LookupOptions, AnswerSet<'z>),
    /// Those of several sets, in order.
    ManyRecords(LookupOptions, Vec<AnswerSet<'z>>),
    /// Those of a section of a message.
    Section(Vec<Record>),
}

impl<'z> LookupRecords<'z> {
    /// The records of one set.
    pub fn new(options: LookupOptions, set: AnswerSet<'z>) -> LookupRecords<'z>
        ensures { records_in result ≡ shown options.dnssec_ok (set_in set.entry) }
    {
        LookupRecords::Records(options, set)
    }

    /// The records of sets, in their order.
    pub fn many(options: LookupOptions, sets: Vec<AnswerSet<'z>>) -> LookupRecords<'z>
        ensures { records_in result ≡ all_shown options.dnssec_ok sets.entry.items }
    {
        LookupRecords::ManyRecords(options, sets)
    }

    /// Whether the records are lent, and the name that they are shown under, so that the list takes no memory.
    pub fn is_lent(&self) -> bool
        ensures { result ≡ is_lent self.now }
    {
        match self {
            LookupRecords::Empty => true,
            LookupRecords::Records(_, set) => set.is_lent(),
            LookupRecords::ManyRecords(_, _) | LookupRecords::Section(_) => false,
        }
    }

    /// Whether there are no records.
    pub fn was_empty(&self) -> bool
        ensures { result ≡ none_in (records_in self.now) }
    {
        self.iter().next().is_none()
    }

    /// The type of the first record.
    pub fn first_type(&self) -> Option<RecordType>
        ensures { result ≡ first_type (records_in self.now) }
    {
        if let LookupRecords::Records(_, set) = self {
            if let Some(first) = set.first() {
                return Some(first.record_type());
            }
        }
        let first = self.iter().next()?;
        Some(first.rdata.record_type())
    }

    /// The records, in order, behind those of each set its signatures if they were asked for.
    #[inline(always)]
    pub fn iter(&self) -> LookupRecordsIter<'_>
        ensures { result ≡ records_in self.now }
    {
        match self {
            LookupRecords::Empty => LookupRecordsIter::of_records(&[]),
            LookupRecords::Records(options, set) => {
                let (current, guise) = set.shown(*options);
                LookupRecordsIter {
                    current,
                    guise,
                    options: *options,
                    sets: &[],
                    shown: 0,
                }
            }
            LookupRecords::ManyRecords(options, sets) => LookupRecordsIter {
                current: RrsetRecords::new(&[], &[]),
                guise: Guise::Own,
                options: *options,
                sets,
                shown: 0,
            },
            LookupRecords::Section(records) => LookupRecordsIter::of_records(records),
        }
    }
}

/// The records of an answer, lent field by field. A contract sees it as the records that are left.
#[derive(Drop)]
pub struct LookupRecordsIter<'r> {
    current: RrsetRecords<'r>,
    guise: Guise<'r>,
    options: LookupOptions,
    sets: &'r [AnswerSet<'r>],
    /// How many of the sets were shown.
    shown: usize,
}

impl<'r> Model for LookupRecordsIter<'r> {
    ghost use Rattle.std.specs.Prelude.{List};
    ghost use Rattle.zst_record.specs.declared.records.Record.{Record as Entry};
    ghost use Rattle.zst_handler.specs.Answers.{left_over};

    ghost Value = { List Entry };

    ghost view = { λ iter. left_over iter.guise iter.current iter.options.dnssec_ok iter.sets.now iter.shown };
}

impl<'r> LookupRecordsIter<'r> {
    /// These records.
    pub fn of_records(records: &'r [Record]) -> LookupRecordsIter<'r>
        ensures { result ≡ records.now }
    {
        LookupRecordsIter {
            current: RrsetRecords::new(records, &[]),
            guise: Guise::Own,
            options: LookupOptions { dnssec_ok: false },
            sets: &[],
            shown: 0,
        }
    }
}

impl<'r> Iterator for LookupRecordsIter<'r> {
    type Item = RecordRef<'r>;

    ghost next_gives = { YieldsFirstBy (λ lent. seen lent) (λ records. records) };

    ghost remaining = { item_count (λ records. records) };

    #[inline(always)]
    fn next(&mut self) -> Option<RecordRef<'r>> {
        'sets: loop {
            if let Some(own) = self.current.next() {
                return Some(dress(self.guise, own));
            }
            if self.sets.len() <= self.shown {
                return None;
            }
            let (current, guise) = self.sets[self.shown].shown(self.options);
            self.shown += 1;
            self.current = current;
            self.guise = guise;
        }
    }
}
