// Whether a request is refused. Judging changes nothing: it looks at the dossier that the request names, at what the clipboard holds, at the
// user's row of agreements and at the length of the log.
#![tactic(auto)]

pub mod table;
