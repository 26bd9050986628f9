//! Tests of what is read and written as text, through public functions: command lines, model files,
//! rules, logs, figures, pictures, inspections and waves; and of the models that stand in the files.
#![tactic(auto)]

#[cfg(test)]
mod course;
#[cfg(test)]
mod figures;
#[cfg(test)]
mod files;
#[cfg(test)]
mod identities;
#[cfg(test)]
mod inspections;
#[cfg(test)]
mod limits;
#[cfg(test)]
mod model_files;
#[cfg(test)]
mod reading;
#[cfg(test)]
mod rings;
#[cfg(test)]
mod rows;
#[cfg(test)]
mod settings;
#[cfg(test)]
mod shapes;
#[cfg(test)]
mod spelled;
#[cfg(test)]
mod statistics;
#[cfg(test)]
mod waves;
#[cfg(test)]
mod writing;
