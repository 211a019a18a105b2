mod attributes;
mod enumerations;
mod given;
mod loading;
mod lower;
mod opposites;
mod script;
