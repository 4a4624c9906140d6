//! What the option words of a command line choose together.

ghost use Rattle.std.specs.Prelude.{◌≡◌};
ghost use Rattle.wild_words.specs.Options.{options_of};
ghost use Rattle.wild_words.specs.SoFar as spec;

use crate::choice::{Choice, read_choice};
use wild_names::{Architecture, Endianness, Name, RelocationModel};
use wild_output_kind::OutputKind;
use wild_plan_spec::PlanOptions;

/// What is chosen so far.
#[derive(Clone, Copy, Debug, Default)]
struct Chosen {
    kind: Option<OutputKind>,
    architecture: Option<Architecture>,
    endian: Option<Endianness>,
    header_size: Option<u64>,
    text_start: Option<u64>,
    data_start: Option<u64>,
    bss_start: Option<u64>,
}

impl Chosen {
    // With one choice more, unless the same question is answered already.
    fn with(mut self, choice: Choice) -> Option<Chosen>
        ensures { result ≡ spec.with_choice self choice }
    {
        let was_chosen = match choice {
            Choice::Kind(kind) => self.kind.replace(kind).is_some(),
            Choice::Architecture(architecture) => self.architecture.replace(architecture).is_some(),
            Choice::Endian(endian) => self.endian.replace(endian).is_some(),
            Choice::HeaderSize(size) => self.header_size.replace(size).is_some(),
            Choice::TextStart(start) => self.text_start.replace(start).is_some(),
            Choice::DataStart(start) => self.data_start.replace(start).is_some(),
            Choice::BssStart(start) => self.bss_start.replace(start).is_some(),
        };
        if was_chosen { None } else { Some(self) }
    }

    // The options: what is chosen, and the default of what is not.
    fn options(&self) -> PlanOptions
        ensures { result ≡ spec.options_so_far self.now }
    {
        PlanOptions {
            architecture: self.architecture.unwrap_or(Architecture::X86_64),
            endian: self.endian,
            kind: self
                .kind
                .unwrap_or(OutputKind::StaticExecutable(RelocationModel::Fixed)),
            header_size: self.header_size.unwrap_or(0),
            segment_starts: [self.text_start, self.data_start, self.bss_start],
        }
    }
}

/// The options that words choose, each an option, and no two of which answer the same question.
pub(crate) fn read_options(words: &[Name]) -> Option<PlanOptions>
    ensures { result ≡ options_of words.now }
{
    let mut chosen = Chosen::default();
    for word in words {
        chosen = chosen.with(read_choice(word.bytes())?)?;
    }
    Some(chosen.options())
}
