ghost use Rattle.std.specs.Prelude.{◌≡◌};

use qvt_base::list_fault::ListFault;
use qvt_base::lists::NameList;
use qvt_base::seq::Seq;
use qvt_base::text::Text;

/// A model of a job: its file, and the name of the model parameter that it is for.
#[derive(Drop)]
pub struct JobModel {
    pub file: Text,
    pub model: Text,
}

pub type JobModelList = Seq<JobModel>;

/// A job: the files of a run, and its fuel.
#[derive(Drop)]
pub struct Job {
    pub fuel: u64,
    pub inputs: JobModelList,
    pub metamodels: NameList,
    pub outputs: JobModelList,
    pub text: Text,
    pub trace: Option<Text>,
}

/// Why a file is no job.
pub enum JobFault {
    /// There was no memory.
    NoMemory,
    /// The file has no JSON value.
    Json,
    /// The value is not of the form of a job. The path names the first fault.
    Shape(Text),
    /// The job names more than 16 files, repeats counted.
    TooManyFiles,
    /// The file of an output or of the trace is that of an earlier output.
    SameFile(Text),
}

impl Drop for JobFault {
    fn drop(self) {
        match self {
            JobFault::NoMemory => {}
            JobFault::Json => {}
            JobFault::Shape(path) => {}
            JobFault::TooManyFiles => {}
            JobFault::SameFile(file) => {}
        }
    }
}

impl From<ListFault> for JobFault {
    ghost use Rattle.qvt_job.specs.declared.job.JobFault.TheVariants.{NoMemory};

    ghost from_gives = { λ _ e. e ≡ NoMemory };

    fn from(_: ListFault) -> JobFault {
        JobFault::NoMemory
    }
}
