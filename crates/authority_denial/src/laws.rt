//! What the octets of a reply deny, by the parts that were sent.

ghost use Rattle.std.specs.Prelude.{◌≡◌, ℕ, List, [], IfSome, false, true};
ghost use Rattle.zst_denial.specs.Denials.{Covers, Lacks, SomeOf};
ghost use Rattle.zst_denial.specs.dnw_codes.declared.record_type.RecordType.{RecordType};
ghost use Rattle.zst_denial.specs.dnw_codes.RecordType.{record_type_number};
ghost use Rattle.zst_denial.specs.dnw_name.DomainName.{DomainName, name_eq};
ghost use Rattle.zsv_reply.specs.Replies.{IsReply, ReplyParts};
ghost use Rattle.zsv_reply.specs.Writing.{AllReadBack};
ghost use Rattle.zsv_reply.specs.zst_record.declared.records.Record.{Record};
ghost use Rattle.zsv_reply.specs.zsv_message.zsv_parts.Headers.{header_of};
ghost use Rattle.zsv_reply.specs.zsv_message.zsv_parts.Questions.{Asked, AskedAt, AvoidsHeader};
ghost use Rattle.zsv_reply.specs.zsv_message.zsv_parts.zst_codes.declared.response_code.ResponseCode.TheVariants.{NXDomain, NoError};
ghost use Rattle.authority_denial.specs.Denials.{DeniesName, DeniesType};

/// A law: a reply that isn't truncated denies what an authority of its parts denies, where these read back and have the code
/// that its header says. No pointer of its questions goes into the header.
pub fn whole_replies_deny()
    ensures name { (message reply : List ℕ) (parts : ReplyParts) (asked : Asked) (id limit count end : ℕ) → AllReadBack parts
        → (is : AskedAt message 12 count asked end) → AvoidsHeader message 12 asked.questions end is.questions.0
        → IsReply message reply parts asked id limit → (name : DomainName)
        → (header_of reply).metadata.truncation ≡ false → (header_of reply).metadata.response_code ≡ NXDomain
        → IfSome parts.edns (λ e. e.rcode_high ≡ 0) → SomeOf (Covers name) parts.authorities → DeniesName reply name }
    ensures record_type { (message reply : List ℕ) (parts : ReplyParts) (asked : Asked) (id limit count end : ℕ) → AllReadBack parts
        → (is : AskedAt message 12 count asked end) → AvoidsHeader message 12 asked.questions end is.questions.0
        → IsReply message reply parts asked id limit → (name : DomainName) (t : RecordType)
        → (header_of reply).metadata.truncation ≡ false → (header_of reply).metadata.response_code ≡ NoError
        → IfSome parts.edns (λ e. e.rcode_high ≡ 0) → parts.answers ≡ [] → SomeOf (Lacks name t) parts.authorities → DeniesType reply name t }
{}

/// A law: what a reply denies, truncated or not, an authority of its parts denies.
pub fn denials_are_of_the_parts()
    ensures name { (message reply : List ℕ) (parts : ReplyParts) (asked : Asked) (id limit count end : ℕ) → AllReadBack parts
        → (is : AskedAt message 12 count asked end) → AvoidsHeader message 12 asked.questions end is.questions.0
        → IsReply message reply parts asked id limit → (name : DomainName) → DeniesName reply name → SomeOf (Covers name) parts.authorities }
    ensures record_type { (message reply : List ℕ) (parts : ReplyParts) (asked : Asked) (id limit count end : ℕ) → AllReadBack parts
        → (is : AskedAt message 12 count asked end) → AvoidsHeader message 12 asked.questions end is.questions.0
        → IsReply message reply parts asked id limit → (name : DomainName) (t : RecordType) → DeniesType reply name t → SomeOf (Lacks name t) parts.authorities }
{}

/// A law: a record that denies a name, or a type of it, denies so each name that equals it up to case.
pub fn equal_names_are_denied()
    ensures name { (asked name : DomainName) → name_eq asked name ≡ true → (r : Record) → Covers asked r → Covers name r }
    ensures record_type { (asked name : DomainName) → name_eq asked name ≡ true → (t u : RecordType) (r : Record)
        → record_type_number t ≡ record_type_number u → Lacks asked t r → Lacks name u r }
{}
