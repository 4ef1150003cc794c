//! Questions whose names stand in full, by their octets alone.

ghost use Rattle.std.specs.Prelude.{◌≡◌, ◌≤◌, ℕ, true, length, IfNone, IfSome};
ghost use Rattle.dnw_encoder.specs.dnw_decoder.Octets.{Stands};
ghost use Rattle.dnw_encoder.specs.dnw_name.DomainName.{DomainName, IsDomainName, name_octets};
ghost use Rattle.zsv_parts.specs.Questions.{Asked, AskedAt, HasWholeName};

use dnw_encoder::Name;

// Where the name ends that stands in full at a place, if one does.
fn name_end(octets: &[u8], start: usize) -> Option<usize>
    requires { start ≤ length octets.now }
    ensures there { IfSome result (λ end. (name : DomainName) × (name.fqdn ≡ true) × IsDomainName name × Stands octets.now start (name_octets name) end) }
    ensures none { IfNone result ((name : DomainName) (end : ℕ) → IsDomainName name → Stands octets.now start (name_octets name) end → ⊥) }
{
    let most = octets.len().min(start + Name::MAX_LENGTH);
    let mut end = start;
    'labels: while end < most {
        let length = usize::from(octets[end]);
        if length == 0 {
            return Some(end + 1);
        }
        if length > 63 {
            return None;
        }
        end += 1 + length;
    }
    None
}

/// The octets of the question at a place, if its name stands there in full. No name is read, and no memory is taken.
pub fn whole_question(octets: &[u8], start: usize) -> Option<&[u8]>
    requires { start ≤ length octets.now }
    ensures there { IfSome result (λ question. (asked : Asked) × (end : ℕ) × (name : DomainName)
        × AskedAt octets.now start 1 asked end × HasWholeName asked name × (asked.octets ≡ question.now)) }
    ensures none { IfNone result ((asked : Asked) (end : ℕ) (name : DomainName) → AskedAt octets.now start 1 asked end
        → HasWholeName asked name → ⊥) }
{
    // (behind the name stand type and class)
    let end = name_end(octets, start)? + 4;
    if octets.len() < end {
        return None;
    }
    Some(&octets[start..end])
}
