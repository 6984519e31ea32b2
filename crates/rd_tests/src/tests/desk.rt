mod cases;
mod images;
mod refused;
mod requests;
mod state;
