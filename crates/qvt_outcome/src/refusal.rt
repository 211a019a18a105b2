use qvt_base::text::Text;
use qvt_conform::fault::ConformFault;
use qvt_job::job::JobFault;
use qvt_metas::fault::{MetaFault, MetasFault};
use qvt_model::data::ModelFault;
use qvt_parsed::fault::ParseFault;
use qvt_types_data::refusal::TypingRefusal;

/// Why a file was refused.
pub enum Refusal {
    /// The files hold no such name.
    Missing,
    /// The file has more bytes than its limit.
    TooLarge,
    /// The file is no job.
    Job(JobFault),
    /// The file is no metamodel.
    Metamodel(MetaFault),
    /// The metamodel does not go with those before it.
    Metamodels(MetasFault),
    /// The file is no model of its metamodel.
    Model(ModelFault),
    /// The models have more than 1,000,000 objects.
    TooManyObjects,
    /// The model does not conform to its metamodel.
    Conform(ConformFault),
    /// The text is not UTF-8.
    Utf8,
    /// The text is no transformation.
    Parse(ParseFault),
    /// The transformation does not go with its metamodels, by the types of its parts.
    Typing(TypingRefusal),
    /// The job's models are not those of the transformation's parameters: the first that does not fit.
    JobModels(Text),
}

impl Drop for Refusal {
    fn drop(self) {
        match self {
            Refusal::Missing => {}
            Refusal::TooLarge => {}
            Refusal::Job(why) => {}
            Refusal::Metamodel(why) => {}
            Refusal::Metamodels(why) => {}
            Refusal::Model(why) => {}
            Refusal::TooManyObjects => {}
            Refusal::Conform(why) => {}
            Refusal::Utf8 => {}
            Refusal::Parse(why) => {}
            Refusal::Typing(why) => {}
            Refusal::JobModels(model) => {}
        }
    }
}
