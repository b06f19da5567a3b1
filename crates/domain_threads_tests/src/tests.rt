mod barriers;
mod bell;
mod jobs;
mod limited;
mod threads;
mod timing;
