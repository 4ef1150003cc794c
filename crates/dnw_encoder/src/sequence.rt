//! Values written one behind the other.
ghost use Rattle.std.specs.Prelude.{◌≡◌, ◌⊎◌, ℕ, None, Some, IfOk, IfErr, OnOk, OnSome};
ghost use Rattle.dnw_encoder.specs.Encoders.{state};
ghost use Rattle.dnw_encoder.specs.Effects.{Writes, WroteAll, WroteFront, RefusesItem};
ghost use Rattle.dnw_encoder.specs.State.{State};

use crate::encodable::BinEncodable;
use crate::encoder::BinEncoder;
use dnw_codes::ProtoError;

// The next item, of an iterator that may be endless.
fn next_of<I: Iterator>(iter: &mut I) -> Option<I::Item>
    requires { I.can_next iter.old }
    ensures steps { I.next_gives iter.old result iter.new }
    ensures on { OnSome result (I.can_next iter.new) }
{
    iter.next()
}

impl BinEncoder<'_> {
    // Writes an item, or takes back what was written of it.
    #[inline(always)]
    fn emit_item<E: BinEncodable>(&mut self, item: &E, count: usize) -> Result<(), ProtoError>
        ensures same_reference { self.new.buffer.ghost_name ≡ self.old.buffer.ghost_name }
        ensures writes { Writes (state self.old) (state self.new) }
        ensures ok { OnOk result (E.emits item.now (state self.old) (state self.new)) }
        ensures stopped { IfErr result (λ e. RefusesItem E.refuses item.now count (state self.old) e (state self.new)) }
    {
        let offset = self.offset;
        match item.emit(self) {
            Ok(()) => Ok(()),
            Err(ProtoError::MaxBufferSizeExceeded(_)) => {
                self.set_offset(offset);
                self.trim();
                Err(ProtoError::NotAllRecordsWritten { count })
            }
            Err(refused) => Err(refused),
        }
    }

    /// Writes items one behind the other, the first 65,535 at most, and says how many. Where one doesn't fit, what
    /// was written of it is taken back, and the error says how many were written.
    pub fn emit_iter<I: Iterator>(&mut self, iter: &mut I) -> Result<usize, ProtoError>
    where
        I::Item: BinEncodable + Drop,
        requires { I.can_next iter.old }
        ensures same_reference { self.new.buffer.ghost_name ≡ self.old.buffer.ghost_name }
        ensures writes { Writes (state self.old) (state self.new) }
        ensures ok { IfOk result (λ count. WroteAll I.next_gives I.Item.emits iter.old iter.new count (state self.old) (state self.new)) }
        ensures stopped { IfErr result (λ e. WroteFront I.next_gives I.Item.emits I.Item.refuses iter.old iter.new (state self.old) e (state self.new)) }
    {
        'items: for count in 0..u16::MAX {
            let Some(item) = next_of(iter) else {
                return Ok(usize::from(count));
            };
            self.emit_item(&item, usize::from(count))?;
        }
        Ok(usize::from(u16::MAX))
    }

    /// Writes the items of an iterator, as `emit_iter` does.
    pub fn emit_all<I: Iterator + Drop>(&mut self, iter: I) -> Result<usize, ProtoError>
    where
        I::Item: BinEncodable + Drop,
        requires { I.can_next iter }
        ensures same_reference { self.new.buffer.ghost_name ≡ self.old.buffer.ghost_name }
        ensures writes { Writes (state self.old) (state self.new) }
        ensures ok { IfOk result (λ count. (left : I) × WroteAll I.next_gives I.Item.emits iter left count (state self.old) (state self.new)) }
        ensures stopped { IfErr result (λ e. (left : I) × WroteFront I.next_gives I.Item.emits I.Item.refuses iter left (state self.old) e (state self.new)) }
    {
        let mut iter = iter;
        self.emit_iter(&mut iter)
    }

    /// Writes what the items of an iterator point to, as `emit_iter` does.
    pub fn emit_all_refs<I: Iterator + Drop>(&mut self, iter: I) -> Result<usize, ProtoError>
    where
        I::Item: BinEncodable + Drop,
        requires { I.can_next iter }
        ensures same_reference { self.new.buffer.ghost_name ≡ self.old.buffer.ghost_name }
        ensures writes { Writes (state self.old) (state self.new) }
        ensures ok { IfOk result (λ count. (left : I) × WroteAll I.next_gives I.Item.emits iter left count (state self.old) (state self.new)) }
        ensures stopped { IfErr result (λ e. (left : I) × WroteFront I.next_gives I.Item.emits I.Item.refuses iter left (state self.old) e (state self.new)) }
    {
        self.emit_all(iter)
    }
}
