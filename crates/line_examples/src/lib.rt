#![tactic(auto)]

// That request U12's limit is met at 64 and no lower one holds: one computed example, and no code. It stands apart from the table of
// examples in `model` because it takes some seconds to compute, and every edit of `model` computes that table. The rest of its examples is
// there (`line_rows`).
