mod numbered;
mod programs;
mod read;
mod refused;
