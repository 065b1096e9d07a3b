// The words that every floor speaks with: choice by a test, tables, and laws on lists and counts. There is no code here.
#![tactic(auto)]
