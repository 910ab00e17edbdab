// The call for C and C++, as include/column_kinds.h declares it: `column_kinds` of the library, with its clauses.
#![tactic(auto)]

ghost use Rattle.column_kinds.specs.Calls.{Calls};

// The number is 0 or a refusal; the result is number × 4,294,967,296 + length.
#[unsafe(no_mangle)]
pub extern "C" fn column_kinds(
    listing: &[u8],
    catalogue: &[u8],
    area: &mut [u8],
    answer: &mut [u8],
) -> u64
    ensures { Calls listing.now catalogue.now area.old area.new answer.old answer.new result }
{
    column_kinds::column_kinds(listing, catalogue, area, answer)
}
