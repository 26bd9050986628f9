// The models that a model file can describe.

use crate::arrays::NamedArray;
use crate::kinds::KindHead;
use crate::scope::{Named, NamedSort};
use eventkey::Message;
use model::{Model as Simulated, Origin, Sends, Words};
use models::AnyModel;
use rules::Rules;
use smallvec::SmallVec;
use std::alloc::Global;
use texts::Names;

/// A model that a model file can describe.
#[derive(Debug, Drop)]
pub enum FileModel {
    /// One of the models of this project.
    BuiltIn(AnyModel),
    /// A model that is described by rules.
    Rules(Rules, ModelNames),
}

/// The names that the file of a model by rules gives. They do not change what the model does.
#[derive(Debug, Drop)]
pub struct ModelNames {
    /// The names for `check`.
    pub form: Form,
    /// The names for the commands that print states and messages.
    pub shown: Names,
}

/// The form of the file of a model by rules.
#[derive(Debug, Drop)]
pub enum Form {
    /// One state and two rules for all processes.
    Alone(FileNames),
    /// Kinds of processes.
    Kinds(Vec<KindNames>),
}

/// The names of a kind of processes.
#[derive(Debug, Drop)]
pub struct KindNames {
    /// The kind.
    pub head: KindHead,
    /// The names of its state and its rules.
    pub names: FileNames,
}

/// The names of a state and of two rules, and those of the file that they read.
#[derive(Debug, Drop)]
pub struct FileNames {
    /// The names of the words of a state, by their places.
    pub words: Vec<String>,
    /// The arrays of a state, by their places.
    pub arrays: Vec<NamedArray>,
    /// The names of the words of a message's content, by their places.
    pub content: Vec<String>,
    /// The sorts of messages, by their numbers.
    pub sorts: Vec<NamedSort>,
    /// The named numbers, in the order of the bytes of their names.
    pub numbers: Vec<Named>,
    /// The names of the tables, by their places.
    pub tables: Vec<String>,
    /// The names that `let` and `repeat` give in the rule for the start, in the order of its text.
    pub start: Vec<String>,
    /// The names that `let` and `repeat` give in the rule for a message, in the order of its text.
    pub handle: Vec<String>,
}

impl Simulated for FileModel {
    ghost use Rattle.rule_files.specs.FileModel.{file_lawful, file_meaning};

    ghost meaning = { file_meaning };

    ghost lawful = { file_lawful };

    fn lps(&self) -> u32 {
        match self {
            FileModel::BuiltIn(model) => model.lps(),
            FileModel::Rules(rules, _) => rules.lps(),
        }
    }

    fn identity(&self, alloc: Global) -> SmallVec<u64, 8> {
        match self {
            FileModel::BuiltIn(model) => model.identity(alloc),
            FileModel::Rules(rules, _) => rules.identity(alloc),
        }
    }

    fn origin(&self) -> Option<&Origin> {
        match self {
            FileModel::BuiltIn(model) => model.origin(),
            FileModel::Rules(rules, _) => rules.origin(),
        }
    }

    fn start(&self, alloc: Global, lp: u32) -> (Words, Sends) {
        match self {
            FileModel::BuiltIn(model) => model.start(alloc, lp),
            FileModel::Rules(rules, _) => rules.start(alloc, lp),
        }
    }

    fn handle(&self, alloc: Global, lp: u32, state: &Words, message: &Message) -> (Words, Sends) {
        match self {
            FileModel::BuiltIn(model) => model.handle(alloc, lp, state, message),
            FileModel::Rules(rules, _) => rules.handle(alloc, lp, state, message),
        }
    }

    fn handle_into(
        &self,
        alloc: Global,
        lp: u32,
        state: &Words,
        message: &Message,
        next: &mut Words,
        sends: &mut Sends,
    ) {
        match self {
            FileModel::BuiltIn(model) => model.handle_into(alloc, lp, state, message, next, sends),
            FileModel::Rules(rules, _) => rules.handle_into(alloc, lp, state, message, next, sends),
        }
    }
}
